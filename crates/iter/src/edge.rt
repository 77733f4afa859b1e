ghost use Rattle.std.specs.Prelude.{◌≡◌, ◌+◌, ◌^◌, ◌<◌};
ghost use Rattle.iter.specs.Ranges.{edge, met, first_in};

use block::ids::Id;
use reader::reader::Description;
use sticky_index::index::{Assoc, IndexScope, StickyIndex};

// How many units of a run stand before an edge at the unit with this offset.
pub(crate) fn edge_at(assoc: Assoc, offset: u32) -> u32
    requires { offset + 1 < 2 ^ 32 }
    ensures { result ≡ edge assoc offset }
{
    match assoc {
        Assoc::Before => offset,
        Assoc::After => offset + 1,
    }
}

// The unit of a mark and its offset in a run, if the run has it.
pub(crate) fn met_in(run: Description, mark: StickyIndex) -> Option<(Id, u32)>
    ensures { result ≡ met run mark.scope }
{
    match mark.scope {
        IndexScope::Relative(id) => Some((id, id.offset_in(run.id, run.len)?)),
        IndexScope::Nested(_) | IndexScope::Root(_) => None,
    }
}

// The offset at which a range starts, if it starts in this run.
pub(crate) fn first_offset(run: Description, mark: StickyIndex) -> Option<u32>
    ensures { result ≡ first_in run mark.assoc mark.scope }
{
    match mark.scope {
        IndexScope::Relative(id) => {
            let offset = id.offset_in(run.id, run.len)?;
            Some(edge_at(mark.assoc, offset))
        }
        IndexScope::Nested(_) | IndexScope::Root(_) => Some(0),
    }
}
