ghost use Rattle.std.specs.Prelude.{◌+◌};
ghost use Rattle.clip.specs.Clipped.{clipped, cut};
ghost use Rattle.clip.specs.ClippedFacts.{clipped_lawful, clipped_settled, clipped_faithful};
ghost use Rattle.clip.specs.Made.{limit_of};

use crate::clip::{Clip, raised};
use crate::walk::Way;
use block::fault::Fault;
use block::ids::Id;
use block::slot::{Slot, Value};
use reader::reader::{Description, Reader};

impl<R: Reader> Reader for Clip<R> {
    type Place = R::Place;

    ghost meaning = { λ s. clipped (limit_of s.pairs) (R.Reader.meaning s.below) };

    ghost stretch = { λ s p. cut (limit_of s.pairs) (R.Reader.meaning s.below) (R.Reader.stretch s.below p) };

    ghost shown = { λ s. R.Reader.shown s.below };

    ghost layers = { λ s. R.Reader.layers s.below + 1 };

    ghost lawful = { λ s. clipped_lawful (limit_of s.pairs) (R.Reader.meaning s.below) (R.Reader.lawful s.below) };

    ghost settled = { λ s. clipped_settled (limit_of s.pairs) (R.Reader.meaning s.below) (R.Reader.stretch s.below) (R.Reader.settled s.below) };

    ghost faithful = { λ s. clipped_faithful (limit_of s.pairs) (R.Reader.meaning s.below) (R.Reader.stretch s.below) (R.Reader.settled s.below) (R.Reader.faithful s.below) };

    fn first(&self, list: u32) -> Result<Option<R::Place>, Fault> {
        let start = self.below.first(list).map_err(raised)?;
        Ok(self.on(start, Way::Right))
    }

    fn right(&self, place: R::Place) -> Option<R::Place> {
        self.past(place, Way::Right)
    }

    fn left(&self, place: R::Place) -> Option<R::Place> {
        self.past(place, Way::Left)
    }

    fn describe(&self, place: R::Place) -> Option<Description> {
        self.said(place)
    }

    fn find(&self, id: Id) -> Option<(R::Place, u32)> {
        self.below
            .find(id)
            .filter(|_| id.clock < self.pairs.limit(id.client))
    }

    // From the limit on every clock of the client is hidden, and the run found below begins at the
    // least clock that is listed.
    fn nearest(&self, client: u64, clock: u32) -> Option<R::Place> {
        if self.pairs.limit(client) <= clock {
            return None;
        }
        self.below
            .nearest(client, clock)
            .filter(|place| self.shows(*place))
    }

    fn known(&self, client: u64) -> u32 {
        self.below.known(client).min(self.pairs.limit(client))
    }

    fn length(&self, list: u32) -> Result<u32, Fault> {
        self.counted(list)
    }

    fn holder(&self, list: u32) -> Result<Option<Id>, Fault> {
        self.below.holder(list).map_err(raised)
    }

    fn read(&self, place: R::Place, offset: u32, slots: &mut [Slot]) -> usize {
        let left = self.left_from(place, offset) as usize;
        let count = slots.len().min(left);
        self.below.read(place, offset, &mut slots[..count])
    }

    fn show(&self, slot: Slot) -> Option<Value<'_>> {
        self.below.show(slot)
    }
}
