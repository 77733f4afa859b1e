ghost use Rattle.sticky_index.specs.Marks.{follow};
ghost use Rattle.sticky_index.specs.Steps.{Looked, Leads};

use block::fault::{Code, Fault, Part, Spot};
use block::ids::Id;
use reader::reader::{Description, Reader};

// A unit that was looked up: its id, the place of its run, how far it stands in the run, and what is
// said of the run.
#[derive(Clone, Copy)]
pub(crate) struct Seat<P> {
    pub(crate) id: Id,
    pub(crate) place: P,
    pub(crate) offset: u32,
    pub(crate) run: Description,
}

// Looks up an id.
pub(crate) fn look<R: Reader>(reader: &R, id: Id) -> Result<Seat<R::Place>, Fault>
    ensures { Looked (R.Reader.meaning reader.now) (R.Reader.stretch reader.now) id result }
{
    let lost = Fault::new(Part::Mark, Code::NotListed, Spot::Unit(id));
    let (place, offset) = reader.find(id).ok_or(lost)?;
    let run = reader.describe(place).ok_or(lost)?;
    Ok(Seat {
        id,
        place,
        offset,
        run,
    })
}

// Looks up an id, and while the unit found has a successor, that one instead. A 65th successor is not
// looked up.
pub(crate) fn track<R: Reader>(reader: &R, id: Id) -> Result<Seat<R::Place>, Fault>
    ensures { Leads (R.Reader.meaning reader.now) (R.Reader.stretch reader.now) (follow (R.Reader.meaning reader.now) 64 id) result }
{
    let mut seat = look(reader, id)?;
    // 64 successors at most.
    for _ in 0..64u32 {
        let Some(next) = seat.run.redone else {
            return Ok(seat);
        };
        seat = look(reader, next)?;
    }
    match seat.run.redone {
        None => Ok(seat),
        Some(_) => Err(Fault::new(Part::Mark, Code::TooManyRedone, Spot::Unit(seat.id))),
    }
}
