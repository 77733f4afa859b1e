ghost use Rattle.std.specs.Prelude.{◌≡◌, ℕ, ◌&&◌, if◌then◌else◌, Some, Option};
ghost use Rattle.block.specs.Kinds.{is_counted};
ghost use Rattle.block.specs.Units.{Meaning, Lawful, Stretch, RunOf, Worth};
ghost use Rattle.block.specs.declared.kind.Kind.{Kind};
ghost use Rattle.block.specs.declared.slot.Slot.{Slot};
ghost use Rattle.reader.specs.Answers.{First, Right, Left, Described, Found, Nearest, Counted, Held, Reads, Valued, faces};

use block::fault::Fault;
use block::ids::Id;
use block::kind::Kind;
use block::slot::{Slot, Value};

// What is said of a run: the id of its first unit, its length, the kind, life and successor that all
// its units share, and its list.
#[derive(Clone, Copy, PartialEq, Eq, Debug)]
pub struct Description {
    pub id: Id,
    pub len: u32,
    pub kind: Kind,
    pub live: bool,
    pub list: u32,
    pub redone: Option<Id>,
}

impl Description {
    // Whether the units of the run are visible.
    pub fn is_visible(self) -> bool
        ensures { result ≡ (self.live && is_counted self.kind) }
    {
        self.live && self.kind.is_countable()
    }

    // How many visible units the run has.
    pub fn visible_len(self) -> u32
        ensures { result ≡ (if self.live && is_counted self.kind then self.len else 0) }
    {
        if self.is_visible() { self.len } else { 0 }
    }
}

// A document that can be asked. A question changes nothing; the only refusal is a list that is not
// there, and a foreign place, offset or slot gets none.
pub trait Reader {
    // Where a run is, in this reader's own terms.
    type Place: Copy;

    // What the document means.
    ghost meaning: { Self → Meaning };

    // The stretch of a list that the run at a place covers; none for a foreign place.
    ghost stretch: { Self → Self.Place → Option Stretch };

    // The kind and worth that a slot shows; none for a foreign slot.
    ghost shown: { Self → Slot → Option (Kind × Worth) };

    // How many clips a refusal passes on its way up.
    ghost layers: { Self → ℕ };

    ghost lawful: { (s : Self) → Lawful (meaning s) };

    // A place covers a run.
    ghost settled: { (s : Self) (p : Self.Place) (t : Stretch) → stretch s p ≡ Some t → RunOf (meaning s) t };

    // Two places of one run are one place.
    ghost faithful: { (s : Self) (p q : Self.Place) (t u : Stretch) → stretch s p ≡ Some t → stretch s q ≡ Some u → t.list ≡ u.list → t.from ≡ u.from → p ≡ q };

    // The leftmost run of a list.
    fn first(&self, list: u32) -> Result<Option<Self::Place>, Fault>
        ensures { First (meaning self.now) (stretch self.now) (layers self.now) list result };

    // The run to the right of a run.
    fn right(&self, place: Self::Place) -> Option<Self::Place>
        ensures { Right (meaning self.now) (stretch self.now) place result };

    // The run to the left of a run.
    fn left(&self, place: Self::Place) -> Option<Self::Place>
        ensures { Left (meaning self.now) (stretch self.now) place result };

    fn describe(&self, place: Self::Place) -> Option<Description>
        ensures { Described (meaning self.now) (stretch self.now place) result };

    // The run and the offset in it that hold an id.
    fn find(&self, id: Id) -> Option<(Self::Place, u32)>
        ensures { Found (meaning self.now) (stretch self.now) id result };

    // A client's listed run at a clock, or the next one after it.
    fn nearest(&self, client: u64, clock: u32) -> Option<Self::Place>
        ensures { Nearest (meaning self.now) (stretch self.now) client clock result };

    // The clock up to which a client's units are known.
    fn known(&self, client: u64) -> u32
        ensures { result ≡ (meaning self.now).known client };

    // How many visible units a list has.
    fn length(&self, list: u32) -> Result<u32, Fault>
        ensures { Counted (meaning self.now) (layers self.now) list result };

    // The unit that holds a list; none for a root.
    fn holder(&self, list: u32) -> Result<Option<Id>, Fault>
        ensures { Held (meaning self.now) (layers self.now) list result };

    // Fills slots with the values of a run's units from an offset on, and says how many.
    fn read(&self, place: Self::Place, offset: u32, slots: &mut [Slot]) -> usize
        ensures { Reads (meaning self.now) (shown self.now) (stretch self.now place) offset slots.old slots.new result };

    // The value of the unit at an offset of a run.
    fn value(&self, place: Self::Place, offset: u32) -> Option<Slot>
        ensures { Valued (meaning self.now) (shown self.now) (stretch self.now place) offset result }
    {
        let mut one = [Slot::Empty];
        if self.read(place, offset, &mut one) == 1 {
            Some(one[0])
        } else {
            None
        }
    }

    // A slot as a value whose bytes are a part of the content.
    fn show(&self, slot: Slot) -> Option<Value<'_>>
        ensures { faces result ≡ shown self.now slot };
}
