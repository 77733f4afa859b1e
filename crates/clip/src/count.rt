ghost use Rattle.std.specs.Prelude.{◌≡◌, ◌+◌};
ghost use Rattle.reader.specs.Answers.{Counted};
ghost use Rattle.clip.specs.Clipped.{clipped, adds_of};
ghost use Rattle.clip.specs.Made.{limit_of};

use crate::clip::{Clip, raised};
use block::fault::Fault;
use reader::reader::Reader;

impl<R: Reader> Clip<R> {
    // How many visible units of a run the clip shows: one expression, over what the clip says of the run.
    fn adds(&self, place: R::Place) -> u32
        ensures { result ≡ adds_of (limit_of self.now.pairs) (R.Reader.meaning self.now.below) (R.Reader.stretch self.now.below place) }
    {
        self.said(place).map_or(0, |run| run.visible_len())
    }

    // The length of a list under the clip, counted anew by a walk from its leftmost run.
    pub(crate) fn counted(&self, list: u32) -> Result<u32, Fault>
        ensures { Counted (clipped (limit_of self.now.pairs) (R.Reader.meaning self.now.below)) (R.Reader.layers self.now.below + 1) list result }
    {
        let mut at = self.below.first(list).map_err(raised)?;
        let mut n = 0;
        // A loop: the walk ends since each run covers units, and `iter::successors` does not say so.
        while let Some(p) = at {
            n += self.adds(p);
            at = self.below.right(p);
        }
        Ok(n)
    }
}
