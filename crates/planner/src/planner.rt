ghost use Rattle.planner.specs.Steps.{Follows};

use block::fault::Fault;
use block::slot::Slot;
use block_iter::block_iter::BlockIter;
use reader::reader::Reader;
use sticky_index::index::{Offset, StickyIndex};

// Where a mark stands, and how many of the steps that follow it were read.
#[derive(Clone, Copy, PartialEq, Eq, Debug)]
pub struct Steps {
    pub at: Offset,
    pub read: usize,
}

// Where is this mark now, and which steps follow? The slots get the visible units from the mark on, as
// many as there are, up to the buffer. A lost mark comes back as its fault, and the slots stay.
pub fn steps_from<R: Reader>(
    reader: &R,
    mark: StickyIndex,
    slots: &mut [Slot],
) -> Result<Steps, Fault>
    ensures { Follows (R.Reader.layers reader.now) (R.Reader.meaning reader.now) (R.Reader.shown reader.now) mark slots.old slots.new result }
{
    let at = mark.get_offset(reader)?;
    let mut cursor = BlockIter::open(reader, at.list).map_err(|(_, fault)| fault)?;
    cursor.try_forward(at.index)?;
    let read = slots.len().min(cursor.left() as usize);
    cursor.slice(&mut slots[..read])?;
    Ok(Steps { at, read })
}
