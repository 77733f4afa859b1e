ghost use Rattle.std.specs.Prelude.{◌≡◌, ℕ, ◌<◌, length};
ghost use Rattle.store.specs.Clocks.{is_clear, is_clear_at, comes_after, comes_after_at, run_follows_at};
ghost use Rattle.store.specs.First.{first_bad, all_pass, some_pass};
ghost use Rattle.store.specs.Records.{held};

use crate::records::{RunRecord, View};

fn is_clear(a: RunRecord, b: RunRecord) -> bool
    ensures { result ≡ is_clear a b }
{
    a.id.client != b.id.client || a.end() <= b.id.clock as u64 || b.end() <= a.id.clock as u64
}

// Whether run i shares no unit with any other.
fn is_clear_of_all(view: &View<'_>, i: usize) -> bool
    ensures { result ≡ all_pass (is_clear_at (held view.now) i) (length (held view.now).runs) }
{
    let run = view.run(i);
    view.runs
        .iter()
        .enumerate()
        .all(|(j, other)| i == j || is_clear(run, *other))
}

fn comes_after(a: RunRecord, b: RunRecord) -> bool
    ensures { result ≡ comes_after a b }
{
    a.id.client == b.id.client && b.end() == a.id.clock as u64
}

// Whether run i begins where some run ends.
fn comes_after_some(view: &View<'_>, i: usize) -> bool
    ensures { result ≡ some_pass (comes_after_at (held view.now) i) (length (held view.now).runs) }
{
    let run = view.run(i);
    view.runs.iter().any(|other| comes_after(run, *other))
}

fn run_follows(view: &View<'_>, i: usize) -> bool
    ensures { result ≡ run_follows_at (held view.now) i }
{
    is_clear_of_all(view, i) && (view.run(i).id.clock == 0 || comes_after_some(view, i))
}

// The first run that overlaps another of its client, or begins at neither 0 nor another's end.
pub fn first_overlap(view: &View<'_>) -> Option<usize>
    ensures { result ≡ first_bad (run_follows_at (held view.now)) (length (held view.now).runs) }
{
    (0..view.runs.len()).find(|&i| !run_follows(view, i))
}
