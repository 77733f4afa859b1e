ghost use Rattle.std.specs.Prelude.{◌≡◌, ℕ, ◌<◌, length, Option};
ghost use Rattle.store.specs.declared.records.RunRecord.{RunRecord};
ghost use Rattle.store.specs.Records.{held};
ghost use Rattle.links.specs.Walks.{is, neighbour_agrees, meets, is_reached, start_agrees};

use std::iter;
use store::records::{RunRecord, View};

// Whether this is the number that is named.
pub(crate) fn is(at: Option<u32>, i: usize) -> bool
    ensures { result ≡ is at i }
{
    at.is_some_and(|j| j as usize == i)
}

// Whether a run's neighbour names it in turn, by the neighbour that `back` reads, and is in its list.
pub(crate) fn neighbour_agrees<F: Fn(RunRecord) -> Option<u32>>(
    view: &View<'_>,
    i: usize,
    neighbour: Option<u32>,
    back: F,
) -> bool
    requires { F.IsAlwaysCallable back }
    ensures { (side : RunRecord → Option ℕ) → ((run : RunRecord) (at : Option ℕ) → F.post back run at → at ≡ side run) → result ≡ neighbour_agrees side (held view.now) i neighbour }
{
    // not `is_none_or`: with a closure over the view its proof did not close
    let Some(j) = neighbour else {
        return true;
    };
    let other = view.run(j as usize);
    is(back(other), i) && other.list == view.run(i).list
}

// Whether a list starts at a run of its own that has no left neighbour.
pub(crate) fn start_agrees(view: &View<'_>, l: usize, start: Option<u32>) -> bool
    ensures { result ≡ start_agrees (held view.now) l start }
{
    // not `is_none_or`: with a closure over the view its proof did not close
    let Some(i) = start else {
        return true;
    };
    let run = view.run(i as usize);
    run.left.is_none() && is(run.list, l)
}

// Whether a walk to the right meets the run. It ends after as many steps as there are runs, since the runs of
// a damaged store may go round.
fn meets(view: &View<'_>, i: usize, start: Option<u32>) -> bool
    ensures { result ≡ meets (held view.now) i start (length (held view.now).runs) }
{
    iter::successors(start, |j| view.run(*j as usize).right)
        .take(view.runs.len())
        .any(|j| j as usize == i)
}

// Whether a run is met from the start of its list.
pub(crate) fn is_reached(view: &View<'_>, i: usize, list: Option<u32>) -> bool
    ensures { result ≡ is_reached (held view.now) i list }
{
    // not `is_none_or`: with a closure over the view its proof did not close
    let Some(l) = list else {
        return true;
    };
    meets(view, i, view.list(l as usize).start)
}
