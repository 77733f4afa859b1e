ghost use Rattle.std.specs.Prelude.{◌≡◌, ◌+◌, Option};
ghost use Rattle.block.specs.Units.{Meaning, Stretch};
ghost use Rattle.iter.specs.Yields.{FirstOf, FirstValue, seen_held, seen_in};

use crate::slice::ItemSlice;
use block::slot::Slot;
use reader::reader::Reader;

// The value of a slice's first unit; none if the slice has no visible units.
fn first_value<R: Reader>(reader: &R, slice: ItemSlice<R::Place>) -> Option<Slot>
    ensures { FirstValue (R.Reader.meaning reader.now) (R.Reader.stretch reader.now) (R.Reader.shown reader.now) slice result }
{
    let place = slice.run.place;
    let run = reader.describe(place)?;
    if run.is_visible() {
        reader.value(place, slice.start)
    } else {
        None
    }
}

// A slice without its first unit; none if no unit is left.
fn without_first<P: Copy>(slice: ItemSlice<P>) -> Option<ItemSlice<P>>
    ensures { (m : Meaning) (st : P → Option Stretch) → seen_held m st result ≡ seen_in m (st slice.run.place) (slice.start + 1) slice.end }
{
    let mut rest = slice;
    rest.trim_start(1).then_some(rest)
}

// Takes the first unit from a slice that was begun, and gives its value. Where the slice has no visible
// units, no slice is left.
pub(crate) fn take_first<R: Reader>(
    reader: &R,
    current: &mut Option<ItemSlice<R::Place>>,
) -> Option<Slot>
    ensures { FirstOf (R.Reader.shown reader.now) (seen_held (R.Reader.meaning reader.now) (R.Reader.stretch reader.now) current.old) result (seen_held (R.Reader.meaning reader.now) (R.Reader.stretch reader.now) current.new) }
{
    let slice = current.take()?;
    let slot = first_value(reader, slice)?;
    *current = without_first(slice);
    Some(slot)
}
