ghost use Rattle.std.specs.Prelude.{◌≡◌, ◌<◌, ◌&&◌, if◌then◌else◌};
ghost use Rattle.block.specs.Kinds.{is_counted};
ghost use Rattle.block.specs.Lookup.{upheld};
ghost use Rattle.sticky_index.specs.Marks.{reach};
ghost use Rattle.sticky_index.specs.Steps.{Seated, Somewhere, LeftOf, Indexed, run_adds};

use crate::index::{Assoc, Offset};
use crate::seat::{Seat, look};
use reader::reader::{Description, Reader};

// Whether the list is a root, or its holder is a listed unit that lives.
fn is_upheld<R: Reader>(reader: &R, list: u32) -> bool
    requires { list < (R.Reader.meaning reader.now).lists }
    ensures { result ≡ upheld (R.Reader.meaning reader.now) list }
{
    match reader.holder(list) {
        Ok(None) => true,
        Ok(Some(id)) => look(reader, id).is_ok_and(|seat| seat.run.live),
        Err(_) => false,
    }
}

// How many visible units the run at a place has: one expression, here and in the cursor.
fn visible_at<R: Reader>(reader: &R, place: R::Place) -> u32
    ensures { result ≡ run_adds (R.Reader.meaning reader.now) (R.Reader.stretch reader.now place) }
{
    reader.describe(place).map_or(0, |run| run.visible_len())
}

// How many visible units stand left of the run at a place.
fn visible_before<R: Reader>(reader: &R, place: R::Place) -> u32
    requires { Somewhere (R.Reader.stretch reader.now) place }
    ensures { LeftOf (R.Reader.meaning reader.now) (R.Reader.stretch reader.now) place result }
{
    let mut n = 0;
    let mut at = reader.left(place);
    // A loop: the walk ends since each run covers units, and `iter::successors` does not say so.
    while let Some(p) = at {
        n += visible_at(reader, p);
        at = reader.left(p);
    }
    n
}

// How many visible units of a run stand left of a mark on its unit at an offset.
fn reached(run: Description, offset: u32, assoc: Assoc) -> u32
    requires { offset < run.len }
    ensures { result ≡ (if run.live && is_counted run.kind then reach assoc offset else 0) }
{
    // A mark on a hidden unit counts nothing of its own run.
    if !run.is_visible() {
        return 0;
    }
    match assoc {
        Assoc::Before => offset + 1,
        Assoc::After => offset,
    }
}

// Where a mark on a unit stands, with one pass over the runs to the unit's left.
pub(crate) fn index_at<R: Reader>(reader: &R, seat: Seat<R::Place>, assoc: Assoc) -> Offset
    requires { Seated (R.Reader.meaning reader.now) (R.Reader.stretch reader.now) seat }
    ensures { Indexed (R.Reader.meaning reader.now) (R.Reader.stretch reader.now) seat assoc result }
{
    let list = seat.run.list;
    let index = if is_upheld(reader, list) {
        let n = visible_before(reader, seat.place);
        let here = reached(seat.run, seat.offset, assoc);
        n + here
    } else {
        0
    };
    Offset { list, index, assoc }
}
