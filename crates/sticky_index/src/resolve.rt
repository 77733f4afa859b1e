ghost use Rattle.std.specs.Prelude.{◌≡◌};
ghost use Rattle.sticky_index.specs.Marks.{found, if_there, unit_stop, list_stop, nested_stop, root_stop, offset_of};
ghost use Rattle.sticky_index.specs.Steps.{Leads, Seated, Holds};

use crate::count::index_at;
use crate::index::{Assoc, IndexScope, Offset, StickyIndex};
use crate::seat::{Seat, track};
use block::fault::{Code, Fault, Part, Spot};
use block::ids::Id;
use block::kind::Kind;
use block::slot::Value;
use reader::reader::Reader;

// The unit to which a mark's id leads.
fn find_unit<R: Reader>(reader: &R, id: Id) -> Result<Seat<R::Place>, Fault>
    ensures { Leads (R.Reader.meaning reader.now) (R.Reader.stretch reader.now) (found (R.Reader.meaning reader.now) id) result }
{
    if id.clock < reader.known(id.client) {
        track(reader, id)
    } else {
        Err(Fault::new(Part::Mark, Code::NotKnown, Spot::Unit(id)))
    }
}

// Where a mark on a unit stands.
fn unit_offset<R: Reader>(reader: &R, id: Id, assoc: Assoc) -> Result<Offset, Fault>
    ensures { result ≡ unit_stop (R.Reader.meaning reader.now) assoc (found (R.Reader.meaning reader.now) id) }
{
    let seat = find_unit(reader, id)?;
    Ok(index_at(reader, seat, assoc))
}

// Where a mark on a list stands: at its end, or at its start if it leans Before.
fn list_offset<R: Reader>(reader: &R, list: u32, assoc: Assoc) -> Result<Offset, Fault>
    ensures { result ≡ list_stop (R.Reader.layers reader.now) (R.Reader.meaning reader.now) list assoc }
{
    let length = reader.length(list)?;
    let index = match assoc {
        Assoc::Before => 0,
        Assoc::After => length,
    };
    Ok(Offset { list, index, assoc })
}

// The list that a unit holds; only a unit of kind `List` holds one.
fn held_list<R: Reader>(reader: &R, seat: Seat<R::Place>) -> Option<u32>
    requires { Seated (R.Reader.meaning reader.now) (R.Reader.stretch reader.now) seat }
    ensures { Holds (R.Reader.meaning reader.now) (R.Reader.stretch reader.now) seat result }
{
    if seat.run.kind != Kind::List {
        return None;
    }
    let slot = reader.value(seat.place, seat.offset)?;
    match reader.show(slot)? {
        Value::List(list) => Some(list),
        _ => None,
    }
}

// Where a mark on the list that a unit holds stands.
fn nested_offset<R: Reader>(reader: &R, id: Id, assoc: Assoc) -> Result<Offset, Fault>
    ensures { result ≡ nested_stop (R.Reader.layers reader.now) (R.Reader.meaning reader.now) assoc (found (R.Reader.meaning reader.now) id) }
{
    let seat = find_unit(reader, id)?;
    let list = held_list(reader, seat).ok_or(Fault::new(
        Part::Mark,
        Code::NotListed,
        Spot::Unit(seat.id),
    ))?;
    list_offset(reader, list, assoc)
}

// Where a mark on a root stands.
fn root_offset<R: Reader>(reader: &R, list: u32, assoc: Assoc) -> Result<Offset, Fault>
    ensures { result ≡ if_there (R.Reader.layers reader.now) (R.Reader.meaning reader.now) list (root_stop (R.Reader.meaning reader.now) list assoc ((R.Reader.meaning reader.now).holder list)) }
{
    match reader.holder(list)? {
        None => list_offset(reader, list, assoc),
        Some(_) => Err(Fault::new(Part::Mark, Code::NoSuchList, Spot::List(list))),
    }
}

impl StickyIndex {
    // Where the mark stands. One that has lost its unit is refused, and never given a near offset.
    pub fn get_offset<R: Reader>(self, reader: &R) -> Result<Offset, Fault>
        ensures { result ≡ offset_of (R.Reader.layers reader.now) (R.Reader.meaning reader.now) self }
    {
        match self.scope {
            IndexScope::Relative(id) => unit_offset(reader, id, self.assoc),
            IndexScope::Nested(id) => nested_offset(reader, id, self.assoc),
            IndexScope::Root(list) => root_offset(reader, list, self.assoc),
        }
    }
}
