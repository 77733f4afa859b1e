ghost use Rattle.std.specs.Prelude.{◌≡◌, ◌<◌, ◌≤◌, true, length, Some, None, MatchResult};
ghost use Rattle.reader.specs.Answers.{no_list};
ghost use Rattle.store.specs.Records.{held, list_at};
ghost use Rattle.document.specs.Examined.{accepts, examined};
ghost use Rattle.document.specs.LawFacts.{lawful_is, settled_is, faithful_is};
ghost use Rattle.document.specs.Meaning.{meaning_of, stretch_of};
ghost use Rattle.document.specs.Slots.{shown_in};
ghost use Rattle.document.specs.SoundFacts.{sound_from};

use crate::examine::verdict;
use crate::fill::count_from;
use crate::find::{clock_of, due_run, run_with};
use crate::show::shown;
use block::fault::{Code, Fault, Spot};
use block::ids::Id;
use block::slot::{Slot, Value};
use reader::reader::{Description, Reader};
use store::records::{ListRecord, View};
use store::refusal::fault_at;

// Tables that passed examination. There is no other way to make one.
#[derive(Clone, Copy)]
pub struct Document<'b, 'a> {
    pub(crate) view: &'b View<'a>,
    ghost shape: { accepts (held view.now) ≡ true },
}

impl<'b, 'a> Document<'b, 'a> {
    // The document over these tables, or the first fault that they have.
    pub fn examine(view: &'b View<'a>) -> Result<Document<'b, 'a>, Fault>
        ensures { MatchResult result (λ d. (examined (held view.now) ≡ None) × (d.view.now ≡ view.now)) (λ f. examined (held view.now) ≡ Some f) }
    {
        verdict(view)?;
        Ok(Document { view })
    }

    // The tables.
    pub fn view(&self) -> &'b View<'a>
        ensures { result.now ≡ self.now.view.now }
    {
        self.view
    }

    // The record of a list; refused where there is no such list.
    fn record_of(&self, list: u32) -> Result<ListRecord, Fault>
        ensures { MatchResult result (λ r. (list < length (held self.now.view.now).lists) × (r ≡ list_at (held self.now.view.now) list)) (λ f. (length (held self.now.view.now).lists ≤ list) × (f ≡ no_list 0 list)) }
    {
        let absent = fault_at(Code::NoSuchList, Spot::List(list));
        self.view.lists.get(list as usize).copied().ok_or(absent)
    }
}

impl<'b, 'a> Reader for Document<'b, 'a> {
    type Place = u32;

    ghost meaning = { λ d. meaning_of (held d.view.now) };

    ghost stretch = { λ d p. stretch_of (held d.view.now) p };

    ghost shown = { λ d. shown_in (held d.view.now) };

    ghost layers = { λ d. 0 };

    ghost lawful = { λ d. lawful_is (held d.view.now) (sound_from (held d.view.now) d.shape) };

    ghost settled = { λ d. settled_is (held d.view.now) (sound_from (held d.view.now) d.shape) };

    ghost faithful = { λ d. faithful_is (held d.view.now) (sound_from (held d.view.now) d.shape) };

    fn first(&self, list: u32) -> Result<Option<u32>, Fault> {
        Ok(self.record_of(list)?.start)
    }

    fn right(&self, place: u32) -> Option<u32> {
        self.view.runs.get(place as usize)?.right
    }

    fn left(&self, place: u32) -> Option<u32> {
        self.view.runs.get(place as usize)?.left
    }

    fn describe(&self, place: u32) -> Option<Description> {
        let run = self.view.runs.get(place as usize)?;
        let list = run.list?;
        Some(Description {
            id: run.id,
            len: run.len,
            kind: run.kind(),
            live: run.live,
            list,
            redone: run.redone,
        })
    }

    fn find(&self, id: Id) -> Option<(u32, u32)> {
        let place = run_with(self.view, id)?;
        let run = self.view.run(place);
        // a unit that stands in no list is not found
        run.list?;
        Some((place as u32, id.clock - run.id.clock))
    }

    fn nearest(&self, client: u64, clock: u32) -> Option<u32> {
        Some(due_run(self.view, client, clock)? as u32)
    }

    fn known(&self, client: u64) -> u32 {
        clock_of(self.view, client)
    }

    fn length(&self, list: u32) -> Result<u32, Fault> {
        Ok(self.record_of(list)?.len)
    }

    fn holder(&self, list: u32) -> Result<Option<Id>, Fault> {
        Ok(self.record_of(list)?.holder)
    }

    fn read(&self, place: u32, offset: u32, slots: &mut [Slot]) -> usize {
        let n = count_from(self.view.run(place as usize), offset, slots.len());
        self.fill(place as usize, offset, &mut slots[..n]);
        n
    }

    fn show(&self, slot: Slot) -> Option<Value<'_>> {
        shown(self.view, slot)
    }
}
