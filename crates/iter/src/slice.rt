ghost use Rattle.std.specs.Prelude.{◌≡◌, ◌+◌, ◌-◌, ◌<◌, ◌≤◌, false, not, ◌&&◌, if◌then◌else◌, MatchOption, ◌==◌, nat_lt};
ghost use Rattle.block.specs.Kinds.{is_counted};
ghost use Rattle.iter.specs.Cuts.{is_part, id_in, has_id};

use crate::run::Run;
use block::ids::Id;
use reader::reader::Description;
use std::alloc::AllocError;

// A part of a run, from one offset to another, both included. It is never empty.
#[derive(PartialEq, Eq, Debug)]
pub struct ItemSlice<P> {
    pub run: Run<P>,
    pub start: u32,
    pub end: u32,
    ghost ordered: { start ≤ end },
    ghost inside: { end < run.about.len },
}

impl<P: Copy> Copy for ItemSlice<P> {}

// Written out, since a struct with ghost fields has no derived `Clone` under a type parameter.
impl<P: Clone> Clone for ItemSlice<P> {
    ghost is_clone = { λ x y. P.is_clone x.run.place y.run.place × (y.run.about ≡ x.run.about) × (y.start ≡ x.start) × (y.end ≡ x.end) };

    ghost is_infallible = { λ x. P.is_infallible x.run.place };

    fn clone(&self) -> Result<ItemSlice<P>, AllocError> {
        let run = self.run.clone()?;
        Ok(ItemSlice {
            run,
            start: self.start,
            end: self.end,
        })
    }
}

impl<P: Copy> ItemSlice<P> {
    // The units from `start` to `end` of a run; none where they are no part of it, or where its clocks
    // do not fit 32 bits.
    pub fn new(place: P, run: Description, start: u32, end: u32) -> Option<ItemSlice<P>>
        ensures { MatchOption result (is_part run start end ≡ false) (λ s. (s.run.place ≡ place) × (s.run.about ≡ run) × (s.start ≡ start) × (s.end ≡ end)) }
    {
        if start <= end && end < run.len && run.id.clock.checked_add(run.len - 1).is_some() {
            Some(ItemSlice {
                run: Run { place, about: run },
                start,
                end,
            })
        } else {
            None
        }
    }

    // The clock of the first unit.
    pub fn clock_start(&self) -> u32
        ensures { result ≡ self.now.run.about.id.clock + self.now.start }
    {
        self.run.about.id.clock + self.start
    }

    // The clock of the last unit.
    pub fn clock_end(&self) -> u32
        ensures { result ≡ self.now.run.about.id.clock + self.now.end }
    {
        self.run.about.id.clock + self.end
    }

    // How many units there are.
    pub fn len(&self) -> u32
        ensures { result ≡ self.now.end - self.now.start + 1 }
    {
        self.end - self.start + 1
    }

    // The first unit.
    pub fn id(&self) -> Id
        ensures { result ≡ id_in self.now.run.about self.now.start }
    {
        Id {
            clock: self.clock_start(),
            ..self.run.about.id
        }
    }

    // The last unit.
    pub fn last_id(&self) -> Id
        ensures { result ≡ id_in self.now.run.about self.now.end }
    {
        Id {
            clock: self.clock_end(),
            ..self.run.about.id
        }
    }

    // Takes `count` units off the start. Where no unit would be left it refuses, and nothing changes.
    // The answer is whether units were taken: there is nothing else to tell, so it is a `bool`.
    // The two trims write different ends: one function for both would take the end and match on it.
    pub fn trim_start(&mut self, count: u32) -> bool
        ensures trimmed { result ≡ nat_lt count (self.old.end - self.old.start + 1) }
        ensures start { self.new.start ≡ (if result then self.old.start + count else self.old.start) }
        ensures rest { (self.new.run ≡ self.old.run) × (self.new.end ≡ self.old.end) }
    {
        let fits = count < self.len();
        if fits {
            self.start += count;
        }
        fits
    }

    // Takes `count` units off the end. Where no unit would be left it refuses, and nothing changes.
    pub fn trim_end(&mut self, count: u32) -> bool
        ensures trimmed { result ≡ nat_lt count (self.old.end - self.old.start + 1) }
        ensures end { self.new.end ≡ (if result then self.old.end - count else self.old.end) }
        ensures rest { (self.new.run ≡ self.old.run) × (self.new.start ≡ self.old.start) }
    {
        let fits = count < self.len();
        if fits {
            self.end -= count;
        }
        fits
    }

    // Whether the slice begins where its run does.
    pub fn adjacent_left(&self) -> bool
        ensures { result ≡ (self.now.start == 0) }
    {
        self.start == 0
    }

    // Whether the slice ends where its run does.
    pub fn adjacent_right(&self) -> bool
        ensures { result ≡ (self.now.end == self.now.run.about.len - 1) }
    {
        self.end == self.run.about.len - 1
    }

    // Whether the slice is its whole run.
    pub fn adjacent(&self) -> bool
        ensures { result ≡ (self.now.start == 0) && (self.now.end == self.now.run.about.len - 1) }
    {
        self.adjacent_left() && self.adjacent_right()
    }

    // Whether the slice's units are dead.
    pub fn is_deleted(&self) -> bool
        ensures { result ≡ not self.now.run.about.live }
    {
        !self.run.about.live
    }

    // Whether live units of the slice count towards the length of their list.
    pub fn is_countable(&self) -> bool
        ensures { result ≡ is_counted self.now.run.about.kind }
    {
        self.run.about.kind.is_countable()
    }

    // Whether the unit with this id is in the slice.
    pub fn contains_id(&self, id: Id) -> bool
        ensures { result ≡ has_id self.now.run.about self.now.start self.now.end id }
    {
        id.offset_in(self.id(), self.len()).is_some()
    }
}
