use crate::reader::{Description, Reader};
use block::fault::Fault;
use block::ids::Id;
use block::slot::{Slot, Value};

// A reader that is lent is a reader too.
impl<R: Reader> Reader for &R {
    type Place = R::Place;

    ghost meaning = { λ s. R.Reader.meaning s.now };

    ghost stretch = { λ s p. R.Reader.stretch s.now p };

    ghost shown = { λ s. R.Reader.shown s.now };

    ghost layers = { λ s. R.Reader.layers s.now };

    ghost lawful = { λ s. R.Reader.lawful s.now };

    ghost settled = { λ s. R.Reader.settled s.now };

    ghost faithful = { λ s. R.Reader.faithful s.now };

    fn first(&self, list: u32) -> Result<Option<R::Place>, Fault> {
        (**self).first(list)
    }

    fn right(&self, place: R::Place) -> Option<R::Place> {
        (**self).right(place)
    }

    fn left(&self, place: R::Place) -> Option<R::Place> {
        (**self).left(place)
    }

    fn describe(&self, place: R::Place) -> Option<Description> {
        (**self).describe(place)
    }

    fn find(&self, id: Id) -> Option<(R::Place, u32)> {
        (**self).find(id)
    }

    fn nearest(&self, client: u64, clock: u32) -> Option<R::Place> {
        (**self).nearest(client, clock)
    }

    fn known(&self, client: u64) -> u32 {
        (**self).known(client)
    }

    fn length(&self, list: u32) -> Result<u32, Fault> {
        (**self).length(list)
    }

    fn holder(&self, list: u32) -> Result<Option<Id>, Fault> {
        (**self).holder(list)
    }

    fn read(&self, place: R::Place, offset: u32, slots: &mut [Slot]) -> usize {
        (**self).read(place, offset, slots)
    }

    fn show(&self, slot: Slot) -> Option<Value<'_>> {
        (**self).show(slot)
    }
}
