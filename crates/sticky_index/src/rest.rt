ghost use Rattle.std.specs.Prelude.{◌≡◌, ◌+◌};
ghost use Rattle.sticky_index.specs.Marks.{on, rest_of, list_mark};
ghost use Rattle.sticky_index.specs.declared.index.Assoc.TheVariants.{Before, After};
ghost use Rattle.sticky_index.specs.declared.index.IndexScope.TheVariants.{Relative};

use crate::index::{Assoc, IndexScope, StickyIndex};
use crate::walk::{End, walk_to};
use block::fault::{Code, Fault, Part, Spot};
use block::ids::Id;
use reader::reader::Reader;

// The mark at `index` that keeps to the unit after it.
fn after<R: Reader>(reader: &R, list: u32, index: u32) -> Result<StickyIndex, Fault>
    ensures { result ≡ rest_of (R.Reader.layers reader.now) (R.Reader.meaning reader.now) list index After }
{
    let start = reader.first(list)?;
    let Ok(id) = walk_to(reader, start, index) else {
        return Err(Fault::new(Part::Mark, Code::BeyondLength, Spot::List(list)));
    };
    Ok(StickyIndex::from_id(id, Assoc::After))
}

// The mark at `index + 1` that keeps to the unit before it.
fn before<R: Reader>(reader: &R, list: u32, index: u32) -> Result<StickyIndex, Fault>
    ensures { result ≡ rest_of (R.Reader.layers reader.now) (R.Reader.meaning reader.now) list (index + 1) Before }
{
    let start = reader.first(list)?;
    match walk_to(reader, start, index) {
        Ok(id) => Ok(StickyIndex::from_id(id, Assoc::Before)),
        Err(End { left, .. }) if left > 0 => Err(Fault::new(
            Part::Mark,
            Code::BeyondLength,
            Spot::List(list),
        )),
        Err(End { last: Some(id), .. }) => Ok(StickyIndex::from_id(id, Assoc::Before)),
        Err(End { last: None, .. }) => StickyIndex::from_type(reader, list, Assoc::Before),
    }
}

impl StickyIndex {
    // The mark on a unit, whether or not there is one with this id.
    pub fn from_id(id: Id, assoc: Assoc) -> StickyIndex
        ensures { result ≡ on (Relative id) assoc }
    {
        StickyIndex {
            scope: IndexScope::Relative(id),
            assoc,
        }
    }

    // The mark on a list: it stands at the list's start if it leans Before, at its end if After.
    pub fn from_type<R: Reader>(reader: &R, list: u32, assoc: Assoc) -> Result<StickyIndex, Fault>
        ensures { result ≡ list_mark (R.Reader.layers reader.now) (R.Reader.meaning reader.now) list assoc }
    {
        let scope = reader
            .holder(list)?
            .map_or(IndexScope::Root(list), IndexScope::Nested);
        Ok(StickyIndex { scope, assoc })
    }

    // The mark at an index of a list. One that leans After keeps to the unit at the index; one that
    // leans Before keeps to the unit before it, at 0 to the list's start, and one past the length to
    // the list's last unit, dead or not.
    pub fn at<R: Reader>(
        reader: &R,
        list: u32,
        index: u32,
        assoc: Assoc,
    ) -> Result<StickyIndex, Fault>
        ensures { result ≡ rest_of (R.Reader.layers reader.now) (R.Reader.meaning reader.now) list index assoc }
    {
        match assoc {
            Assoc::After => after(reader, list, index),
            Assoc::Before if index == 0 => StickyIndex::from_type(reader, list, Assoc::Before),
            Assoc::Before => before(reader, list, index - 1),
        }
    }

    // The mark at an index of a list that keeps to the unit after it.
    pub fn at_index<R: Reader>(reader: &R, list: u32, index: u32) -> Result<StickyIndex, Fault>
        ensures { result ≡ rest_of (R.Reader.layers reader.now) (R.Reader.meaning reader.now) list index After }
    {
        StickyIndex::at(reader, list, index, Assoc::default())
    }
}
