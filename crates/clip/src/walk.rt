ghost use Rattle.clip.specs.Clipped.{clipped, cut};
ghost use Rattle.clip.specs.Made.{limit_of};
ghost use Rattle.clip.specs.Walks.{NextTo, Skips};

use crate::clip::Clip;
use reader::reader::Reader;

// Which way a walk goes. The walk's measure is chosen by the way, so the way is a value and not a
// closure. (`iter::successors` was tried too: its end is not promised, the goal is false.)
#[derive(Clone, Copy)]
pub(crate) enum Way {
    Left,
    Right,
}

impl<R: Reader> Clip<R> {
    // The run below next to a run.
    fn next_to(&self, place: R::Place, way: Way) -> Option<R::Place>
        ensures { NextTo way (R.Reader.meaning self.now.below) (R.Reader.stretch self.now.below) place result }
    {
        match way {
            Way::Left => self.below.left(place),
            Way::Right => self.below.right(place),
        }
    }

    // The first run from here on that is shown.
    pub(crate) fn on(&self, start: Option<R::Place>, way: Way) -> Option<R::Place>
        ensures { Skips way (limit_of self.now.pairs) (R.Reader.meaning self.now.below) (R.Reader.stretch self.now.below) start result }
    {
        let mut at = start;
        // A loop: the walk ends since each run covers units, and `iter::successors` does not say so.
        while let Some(p) = at {
            if self.shows(p) {
                return Some(p);
            }
            at = self.next_to(p, way);
        }
        None
    }

    // The next run past a run that is shown.
    pub(crate) fn past(&self, place: R::Place, way: Way) -> Option<R::Place>
        ensures { NextTo way (clipped (limit_of self.now.pairs) (R.Reader.meaning self.now.below)) (λ p. cut (limit_of self.now.pairs) (R.Reader.meaning self.now.below) (R.Reader.stretch self.now.below p)) place result }
    {
        if !self.shows(place) {
            return None;
        }
        self.on(self.next_to(place, way), way)
    }
}
