ghost use Rattle.std.specs.Prelude.{◌≡◌, List, ◌∷◌};
ghost use Rattle.iter.specs.Bare.{Bare, bare};
ghost use Rattle.iter.specs.Between.{Between};
ghost use Rattle.iter.specs.Ranges.{Answers, course, cut};
ghost use Rattle.iter.specs.Steps.{Coming, gives};
ghost use Rattle.iter.specs.declared.state.RangeIterState.TheVariants.{Opened, InRange};

use crate::edge::{edge_at, first_offset, met_in};
use crate::run::Run;
use crate::slice::ItemSlice;
use crate::slices::Slices;
use crate::source::Source;
use crate::state::RangeIterState;
use block::fault::{Code, Fault, Part, Spot};
use sticky_index::index::StickyIndex;

// The slices of a source's runs between two marks, one after another.
#[derive(Drop)]
pub struct RangeIter<S: Source> {
    iter: S,
    start: StickyIndex,
    end: StickyIndex,
    state: RangeIterState,
}

impl<S: Source> RangeIter<S> {
    // A range that has not met its start. Unless it is refused, its slices have exactly the units
    // between the marks.
    pub fn new(iter: S, start: StickyIndex, end: StickyIndex) -> RangeIter<S>
        ensures opened { result ≡ record { iter = iter; start = start; end = end; state = Opened } }
        ensures between { (ws : List (Bare S.Place)) → Between start end ws (gives result ws) }
    {
        RangeIter {
            iter,
            start,
            end,
            state: RangeIterState::Opened,
        }
    }

    // Gives the source back.
    pub fn close(self) -> S
        ensures { result ≡ self.iter }
    {
        self.iter
    }

    // What comes of the next run, and how far the range has come then.
    fn meet(&mut self, run: Run<S::Place>) -> Result<Option<ItemSlice<S::Place>>, Fault>
        ensures kept { self.new.iter ≡ self.old.iter }
        ensures answers { (ws : List (Bare S.Place)) → Answers (gives self.old (bare run ∷ ws)) result (gives self.new ws) }
    {
        match self.state {
            RangeIterState::Opened => match first_offset(run.about, self.start) {
                Some(first) => self.cut_run(run, first),
                None => Ok(None),
            },
            RangeIterState::InRange => self.cut_run(run, 0),
            RangeIterState::Closed => Ok(None),
        }
    }

    // What comes of a run from an offset on, and how far the range has come then.
    fn cut_run(
        &mut self,
        run: Run<S::Place>,
        first: u32,
    ) -> Result<Option<ItemSlice<S::Place>>, Fault>
        ensures kept { self.new.iter ≡ self.old.iter }
        ensures answers { (ws : List (Bare S.Place)) → Answers (cut (bare run) first self.old.end (course InRange self.old.start self.old.end ws)) result (gives self.new ws) }
    {
        let Some((id, offset)) = met_in(run.about, self.end) else {
            self.state = RangeIterState::InRange;
            return Ok(run.part(first, run.about.len));
        };
        self.state = RangeIterState::Closed;
        if offset < first {
            return Err(Fault::new(Part::Range, Code::Backwards, Spot::Unit(id)));
        }
        Ok(run.part(first, edge_at(self.end.assoc, offset)))
    }
}

impl<S: Source> Slices for RangeIter<S> {
    type Place = S::Place;

    ghost coming = { λ s c. Coming S.Source.ahead s c };

    ghost left = { λ s. S.Source.left s.iter };

    // The next slice; none at the end. An end before the start is refused, and then nothing comes.
    fn next(&mut self) -> Result<Option<ItemSlice<S::Place>>, Fault> {
        while self.state != RangeIterState::Closed {
            let Some(run) = self.iter.next() else {
                return Ok(None);
            };
            if let Some(slice) = self.meet(run)? {
                return Ok(Some(slice));
            }
        }
        Ok(None)
    }
}
