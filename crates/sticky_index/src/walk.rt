ghost use Rattle.std.specs.Prelude.{◌≡◌, ◌+◌, ◌^◌, ◌<◌};
ghost use Rattle.sticky_index.specs.Steps.{Walked};

use block::ids::Id;
use reader::reader::{Description, Reader};

// Where a walk from the left stopped past the last run: how many visible units were still to pass,
// and the id of the list's last unit, dead or not.
#[derive(Clone, Copy)]
pub(crate) struct End {
    pub(crate) left: u32,
    pub(crate) last: Option<Id>,
}

// The id of the unit at an offset of a run.
fn unit_of(run: Description, offset: u32) -> Id
    requires { run.id.clock + offset < 2 ^ 32 }
    ensures { result ≡ record { client = run.id.client; clock = run.id.clock + offset } }
{
    Id {
        clock: run.id.clock + offset,
        ..run.id
    }
}

// Walks from the leftmost run of a list to visible unit `index`.
pub(crate) fn walk_to<R: Reader>(reader: &R, start: Option<R::Place>, index: u32) -> Result<Id, End>
    ensures { Walked (R.Reader.meaning reader.now) (R.Reader.stretch reader.now) start index result }
{
    let mut at = start;
    let mut left = index;
    let mut last = None;
    // A loop: the walk ends since each run covers units, and `iter::successors` does not say so.
    while let Some(p) = at {
        let Some(run) = reader.describe(p) else {
            return Err(End { left, last });
        };
        let n = run.visible_len();
        if left < n {
            return Ok(unit_of(run, left));
        }
        left -= n;
        last = Some(unit_of(run, run.len - 1));
        at = reader.right(p);
    }
    Err(End { left, last })
}
