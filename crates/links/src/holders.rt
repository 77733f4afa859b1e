ghost use Rattle.std.specs.Prelude.{◌≡◌, ℕ, ◌<◌, ◌≤◌, length};
ghost use Rattle.store.specs.First.{first_bad, failing, some_pass, passing};
ghost use Rattle.store.specs.Records.{held};
ghost use Rattle.links.specs.Links.{is_list, is_id, held_by_at, holds_one, is_holder, is_holder_at, holder_agrees};

use block::ids::Id;
use block::kind::Kind;
use store::records::{RunRecord, View};

fn is_list(run: RunRecord) -> bool
    ensures { result ≡ is_list run }
{
    run.kind() == Kind::List
}

// The first list that a unit holds.
pub fn list_held(view: &View<'_>, id: Id) -> Option<usize>
    ensures { result ≡ first_bad (failing (held_by_at (held view.now) id)) (length (held view.now).lists) }
{
    view.lists.iter().position(|list| list.holder == Some(id))
}

// How many lists a unit holds.
pub(crate) fn lists_held(view: &View<'_>, id: Id) -> usize
    ensures { result ≡ passing (held_by_at (held view.now) id) (length (held view.now).lists) }
{
    view.lists
        .iter()
        .filter(|list| list.holder == Some(id))
        .count()
}

// Whether a unit of kind `List` holds just one list.
pub(crate) fn holds_one(view: &View<'_>, run: RunRecord) -> bool
    ensures { result ≡ holds_one (held view.now) run }
{
    !is_list(run) || lists_held(view, run.id) == 1
}

fn some_holds(view: &View<'_>, id: Id) -> bool
    ensures { result ≡ some_pass (is_holder_at (held view.now) id) (length (held view.now).runs) }
{
    view.runs.iter().any(|run| is_list(*run) && run.id == id)
}

// Whether a list's holder is a unit of kind `List`.
pub(crate) fn holder_agrees(view: &View<'_>, holder: Option<Id>) -> bool
    ensures { result ≡ holder_agrees (held view.now) holder }
{
    // not `is_none_or`: with a closure over the view its proof did not close
    let Some(id) = holder else {
        return true;
    };
    some_holds(view, id)
}
