ghost use Rattle.std.specs.Prelude.{◌≡◌, ℕ, ◌+◌, ◌<◌, ◌≤◌, length, nat_le};
ghost use Rattle.store.specs.First.{first_bad, all_pass};
ghost use Rattle.store.specs.Ranges.{in_use, id_fits, numbers_fit, names_fit, entry_fits, is_placed, length_fits, run_fits, run_fits_at, list_fits, list_fits_at, other_client, client_fits_at, entry_inside, entry_fits_at};
ghost use Rattle.store.specs.Records.{held};

use crate::kinds::{is_single, stands_apart};
use crate::records::{ClientRecord, EntryRecord, ListRecord, RunRecord, View};
use block::ids::{Id, is_client};
use block::kind::Kind;

// The greatest clock that may be known.
const LAST_CLOCK: u32 = 0x7FFF_FFFF;

fn in_use(at: Option<u32>, count: usize) -> bool
    ensures { result ≡ in_use at count }
{
    at.is_none_or(|i| (i as usize) < count)
}

fn id_fits(id: Option<Id>) -> bool
    ensures { result ≡ id_fits id }
{
    id.is_none_or(|id| is_client(id.client))
}

fn has_kind(run: RunRecord) -> bool
    ensures { result ≡ nat_le run.kind 10 }
{
    Kind::try_from(run.kind).is_ok()
}

fn numbers_fit(run: RunRecord) -> bool
    ensures { result ≡ numbers_fit run }
{
    is_client(run.id.client)
        && has_kind(run)
        && 0 < run.len
        && run.id.clock <= LAST_CLOCK
        && run.len <= LAST_CLOCK - run.id.clock
}

fn names_fit(view: &View<'_>, run: RunRecord) -> bool
    ensures { result ≡ names_fit (held view.now) run }
{
    in_use(run.left, view.runs.len())
        && in_use(run.right, view.runs.len())
        && in_use(run.list, view.lists.len())
        && id_fits(run.redone)
}

fn entry_fits(view: &View<'_>, run: RunRecord) -> bool
    ensures { result ≡ entry_fits (held view.now) run }
{
    if run.entries() == 0 {
        run.entry as usize <= view.entries.len()
    } else {
        (run.entry as usize) < view.entries.len()
    }
}

fn is_placed(run: RunRecord) -> bool
    ensures { result ≡ is_placed run }
{
    if stands_apart(run.kind()) {
        run.list.is_none() && run.left.is_none() && run.right.is_none()
    } else {
        run.list.is_some()
    }
}

fn length_fits(run: RunRecord) -> bool
    ensures { result ≡ length_fits run }
{
    !is_single(run.kind()) || run.len == 1
}

fn run_fits(view: &View<'_>, run: RunRecord) -> bool
    ensures { result ≡ run_fits (held view.now) run }
{
    numbers_fit(run)
        && names_fit(view, run)
        && entry_fits(view, run)
        && is_placed(run)
        && length_fits(run)
}

// The first run with a number out of range.
pub fn first_run(view: &View<'_>) -> Option<usize>
    ensures { result ≡ first_bad (run_fits_at (held view.now)) (length (held view.now).runs) }
{
    view.runs.iter().position(|run| !run_fits(view, *run))
}

fn list_fits(view: &View<'_>, list: ListRecord) -> bool
    ensures { result ≡ list_fits (held view.now) list }
{
    in_use(list.start, view.runs.len()) && id_fits(list.holder)
}

// The first list with a number out of range.
pub fn first_list(view: &View<'_>) -> Option<usize>
    ensures { result ≡ first_bad (list_fits_at (held view.now)) (length (held view.now).lists) }
{
    view.lists.iter().position(|list| !list_fits(view, *list))
}

// Whether no earlier record has the client of this one.
fn is_new(view: &View<'_>, i: usize) -> bool
    requires { i < length (held view.now).clients }
    ensures { result ≡ all_pass (other_client (held view.now) i) i }
{
    let client = view.clients[i].client;
    view.clients[..i]
        .iter()
        .all(|earlier| earlier.client != client)
}

fn client_fits(view: &View<'_>, i: usize) -> bool
    requires { i < length (held view.now).clients }
    ensures { result ≡ client_fits_at (held view.now) i }
{
    is_client(view.clients[i].client) && view.clients[i].known <= LAST_CLOCK && is_new(view, i)
}

// The first client that is out of range, or whose record comes a second time.
pub fn first_client(view: &View<'_>) -> Option<usize>
    ensures { result ≡ first_bad (client_fits_at (held view.now)) (length (held view.now).clients) }
{
    (0..view.clients.len()).find(|&i| !client_fits(view, i))
}

fn entry_is_inside(view: &View<'_>, entry: EntryRecord) -> bool
    ensures { result ≡ entry_inside (held view.now) entry }
{
    entry.start as usize + entry.len as usize <= view.bytes.len()
}

// The first entry that is not within the bytes in use.
pub fn first_entry(view: &View<'_>) -> Option<usize>
    ensures { result ≡ first_bad (entry_fits_at (held view.now)) (length (held view.now).entries) }
{
    view.entries
        .iter()
        .position(|entry| !entry_is_inside(view, *entry))
}
