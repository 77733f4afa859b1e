ghost use Rattle.std.specs.Prelude.{◌≡◌};
ghost use Rattle.sticky_index.specs.Marks.{rest_of};
ghost use Rattle.sticky_index.specs.Promise.{resolved, Steady, Stays};

use crate::index::{Assoc, Offset, StickyIndex};
use block::fault::Fault;
use reader::reader::Reader;

impl StickyIndex {
    // Makes the mark at an index of a list, and says where it stands: at that index, or at the list's
    // end, if the list stands and none of its units is redone.
    pub fn place<R: Reader>(
        reader: &R,
        list: u32,
        index: u32,
        assoc: Assoc,
    ) -> Result<(StickyIndex, Offset), Fault>
        ensures answer { result ≡ resolved (R.Reader.layers reader.now) (R.Reader.meaning reader.now) (rest_of (R.Reader.layers reader.now) (R.Reader.meaning reader.now) list index assoc) }
        ensures stays { Steady (R.Reader.meaning reader.now) list → Stays (R.Reader.layers reader.now) (R.Reader.meaning reader.now) list index assoc result }
    {
        let mark = StickyIndex::at(reader, list, index, assoc)?;
        let offset = mark.get_offset(reader)?;
        Ok((mark, offset))
    }
}
