ghost use Rattle.std.specs.Prelude.{◌≡◌, ℕ, ◌<◌, length, ◌==◌};
ghost use Rattle.store.specs.Records.{held};
ghost use Rattle.links.specs.Lengths.{share, visible_sum, last_end};

use crate::walks::is;
use store::records::{RunRecord, View};

fn share(l: usize, run: RunRecord) -> u32
    ensures { result ≡ share l run }
{
    if is(run.list, l) {
        run.visible_len()
    } else {
        0
    }
}

// Whether the runs of a list have just so many visible units.
pub(crate) fn has_length(view: &View<'_>, l: usize, len: u32) -> bool
    ensures { result ≡ (len == visible_sum (held view.now) l (length (held view.now).runs)) }
{
    // a sum that reaches the greatest number stays there, past the length of any list
    let sum = view
        .runs
        .iter()
        .fold(0u64, |sum, run| sum.saturating_add(share(l, *run) as u64));
    sum == len as u64
}

// The clock after the last unit of a client.
pub(crate) fn last_end(view: &View<'_>, client: u64) -> u64
    ensures { result ≡ last_end (held view.now) client (length (held view.now).runs) }
{
    view.runs
        .iter()
        .filter(|run| run.id.client == client)
        .map(|run| run.end())
        .max()
        .unwrap_or(0)
}
