ghost use Rattle.std.specs.Prelude.{◌≡◌, is_some};
ghost use Rattle.reader.specs.Answers.{Described};
ghost use Rattle.clip.specs.Clipped.{clipped, cut, left_of, raise};
ghost use Rattle.clip.specs.Holders.{HiddenIsDead};
ghost use Rattle.clip.specs.Made.{limit_of};

use crate::pairs::Pairs;
use block::fault::Fault;
use reader::reader::{Description, Reader};

// A reader over another that hides each unit whose clock is not below its client's.
#[derive(Drop)]
pub struct Clip<R> {
    pub(crate) below: R,
    pub(crate) pairs: Pairs,
}

impl Pairs {
    // A clip of these pairs over a reader. A holder that it hides counts as dead.
    pub fn over<R>(self, below: R) -> Clip<R>
        ensures below { result.below ≡ below }
        ensures pairs { result.pairs ≡ self }
        ensures holders { HiddenIsDead }
    {
        Clip { below, pairs: self }
    }
}

impl<R> Clip<R> {
    // Gives the reader below back.
    pub fn close(self) -> R
        ensures { result ≡ self.below }
    {
        self.below
    }
}

// A refusal that has passed one clip more.
pub(crate) fn raised(e: Fault) -> Fault
    ensures { result ≡ raise e }
{
    Fault {
        clips: e.clips.saturating_add(1),
        ..e
    }
}

impl<R: Reader> Clip<R> {
    // What is said of the shown part of a run.
    pub(crate) fn said(&self, place: R::Place) -> Option<Description>
        ensures { Described (clipped (limit_of self.now.pairs) (R.Reader.meaning self.now.below)) (cut (limit_of self.now.pairs) (R.Reader.meaning self.now.below) (R.Reader.stretch self.now.below place)) result }
    {
        let run = self.below.describe(place)?;
        let limit = self.pairs.limit(run.id.client);
        if limit <= run.id.clock {
            return None;
        }
        let len = run.len.min(limit - run.id.clock);
        Some(Description { len, ..run })
    }

    // Whether a run is shown, at least in part.
    pub(crate) fn shows(&self, place: R::Place) -> bool
        ensures { result ≡ is_some (cut (limit_of self.now.pairs) (R.Reader.meaning self.now.below) (R.Reader.stretch self.now.below place)) }
    {
        self.said(place).is_some()
    }

    // How many units of a run are shown from an offset on.
    pub(crate) fn left_from(&self, place: R::Place, offset: u32) -> u32
        ensures { result ≡ left_of (limit_of self.now.pairs) (R.Reader.meaning self.now.below) (R.Reader.stretch self.now.below place) offset }
    {
        self.said(place)
            .map_or(0, |run| run.len.saturating_sub(offset))
    }
}
