ghost use Rattle.std.specs.Prelude.{◌≡◌, None};
ghost use Rattle.iter.specs.Ranges.{Course};
ghost use Rattle.iter.specs.Yields.{Yields};

use crate::slice::ItemSlice;
use crate::slices::Slices;
use crate::unit::take_first;
use block::fault::Fault;
use block::slot::Slot;
use reader::reader::Reader;

// The values of the visible units of slices, one after another.
#[derive(Drop)]
pub struct Values<R: Reader, I: Slices<Place = R::Place>> {
    reader: R,
    iter: I,
    current: Option<ItemSlice<R::Place>>,
}

impl<R: Reader, I: Slices<Place = R::Place>> Values<R, I> {
    pub fn new(reader: R, iter: I) -> Values<R, I>
        ensures { result ≡ record { reader = reader; iter = iter; current = None } }
    {
        Values {
            reader,
            iter,
            current: None,
        }
    }

    // The value of the next visible unit; none at the end. Where the slices are refused, so is this.
    // No `Iterator`: which slices are still to come is only a relation, and so is which values.
    pub fn next(&mut self) -> Result<Option<Slot>, Fault>
        ensures kept { self.new.reader ≡ self.old.reader }
        ensures next { (c : Course R.Place) → I.Slices.coming self.old.iter c → Yields (R.Reader.meaning self.old.reader) (R.Reader.stretch self.old.reader) (R.Reader.shown self.old.reader) I.Slices.coming self.old.current c result self.new.iter self.new.current }
    {
        loop {
            let value = take_first(&self.reader, &mut self.current);
            if value.is_some() {
                return Ok(value);
            }
            let Some(slice) = self.iter.next()? else {
                return Ok(None);
            };
            self.current = Some(slice);
        }
    }

    // Gives the reader and the slices back.
    pub fn close(self) -> (R, I)
        ensures { (result.0 ≡ self.reader) × (result.1 ≡ self.iter) }
    {
        (self.reader, self.iter)
    }
}
