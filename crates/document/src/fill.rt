ghost use Rattle.std.specs.Prelude.{◌≡◌, ◌+◌, ◌^◌, ◌<◌, ◌≤◌, length};
ghost use Rattle.block.specs.declared.kind.Kind.TheVariants as kinds;
ghost use Rattle.store.specs.Kinds.{kind_of};
ghost use Rattle.store.specs.Records.{held, run_at};
ghost use Rattle.document.specs.Slots.{entry_slot, slot_of, count_from, Filled};

use crate::document::Document;
use crate::slots::fill_with;
use crate::text::{fill_bytes, fill_characters};
use block::kind::Kind;
use block::slot::Slot;
use links::holders::list_held;
use store::records::{RunRecord, View};

// How many values a run has from an offset on, as far as there is room.
pub(crate) fn count_from(run: RunRecord, offset: u32, room: usize) -> usize
    ensures { result ≡ count_from run offset room }
{
    if !run.kind().is_countable() {
        return 0;
    }
    room.min(run.len.saturating_sub(offset) as usize)
}

// A slot for each entry from the first on.
fn fill_entries(view: &View<'_>, kind: Kind, first: usize, slots: &mut [Slot])
    requires { first + length slots.old < 2 ^ 64 }
    ensures { Filled (λ k. entry_slot (held view.now) kind (first + k)) slots.old slots.new }
{
    fill_with(slots, |k| {
        let entry = view.entry(first + k);
        Slot::Content {
            kind,
            start: entry.start,
            len: entry.len,
        }
    });
}

impl<'b, 'a> Document<'b, 'a> {
    // A slot for each character of a run of text, from an offset on. Where the run has as many bytes as units, each is one byte.
    fn fill_text(&self, place: usize, offset: u32, slots: &mut [Slot])
        requires text { (place < length (held self.now.view.now).runs) × (kind_of (run_at (held self.now.view.now) place).kind ≡ kinds.Text) }
        requires room { offset + length slots.old ≤ (run_at (held self.now.view.now) place).len }
        ensures { Filled (λ k. slot_of (held self.now.view.now) kinds.Text (run_at (held self.now.view.now) place) (offset + k)) slots.old slots.new }
    {
        let run = self.view.run(place);
        let entry = self.view.entry(run.entry as usize);
        if entry.len == run.len {
            fill_bytes(entry.start + offset, slots);
        } else {
            let text = self.view.bytes_of(entry);
            fill_characters(text, entry.start, offset as usize, slots);
        }
    }

    // The slots of a run's units, from an offset on; the run has at least so many values from there.
    pub(crate) fn fill(&self, place: usize, offset: u32, slots: &mut [Slot])
        requires { length slots.old ≡ count_from (run_at (held self.now.view.now) place) offset (length slots.old) }
        ensures { Filled (λ k. slot_of (held self.now.view.now) (kind_of (run_at (held self.now.view.now) place).kind) (run_at (held self.now.view.now) place) (offset + k)) slots.old slots.new }
    {
        // the offset may be past the run's end then, and a sum with it too large
        if slots.is_empty() {
            return;
        }
        let run = self.view.run(place);
        let kind = run.kind();
        match kind {
            Kind::Text => self.fill_text(place, offset, slots),
            Kind::List => {
                if let Some(l) = list_held(self.view, run.id) {
                    slots.fill(Slot::List(l as u32));
                }
            }
            Kind::Json | Kind::Binary | Kind::Embed | Kind::Any | Kind::Doc => {
                let first = run.entry as usize + offset as usize;
                fill_entries(self.view, kind, first, slots);
            }
            Kind::Gc | Kind::Deleted | Kind::Format | Kind::Skip => {}
        }
    }
}
