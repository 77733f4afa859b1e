ghost use Rattle.std.specs.Prelude.{◌≡◌, ℕ, ◌<◌, length};
ghost use Rattle.store.specs.First.{first_bad, some_pass};
ghost use Rattle.store.specs.Records.{held};
ghost use Rattle.links.specs.Links.{is_client_at, is_recorded, run_agrees_at, list_agrees_at, client_agrees, client_agrees_at};

use crate::holders::{holder_agrees, holds_one};
use crate::lengths::{has_length, last_end};
use crate::walks::{is_reached, neighbour_agrees, start_agrees};
use store::records::{ClientRecord, View};

fn is_recorded(view: &View<'_>, client: u64) -> bool
    ensures { result ≡ is_recorded (held view.now) client }
{
    view.clients.iter().any(|record| record.client == client)
}

fn run_agrees(view: &View<'_>, i: usize) -> bool
    ensures { result ≡ run_agrees_at (held view.now) i }
{
    let run = view.run(i);
    neighbour_agrees(view, i, run.left, |other| other.right)
        && neighbour_agrees(view, i, run.right, |other| other.left)
        && is_reached(view, i, run.list)
        && holds_one(view, run)
        && is_recorded(view, run.id.client)
}

// The first run that disagrees with its neighbours, its list, the list that it holds or its client.
pub fn first_run(view: &View<'_>) -> Option<usize>
    ensures { result ≡ first_bad (run_agrees_at (held view.now)) (length (held view.now).runs) }
{
    (0..view.runs.len()).find(|&i| !run_agrees(view, i))
}

fn list_agrees(view: &View<'_>, l: usize) -> bool
    ensures { result ≡ list_agrees_at (held view.now) l }
{
    let list = view.list(l);
    start_agrees(view, l, list.start)
        && holder_agrees(view, list.holder)
        && has_length(view, l, list.len)
}

// The first list that disagrees with its runs or its holder.
pub fn first_list(view: &View<'_>) -> Option<usize>
    ensures { result ≡ first_bad (list_agrees_at (held view.now)) (length (held view.now).lists) }
{
    (0..view.lists.len()).find(|&l| !list_agrees(view, l))
}

fn client_agrees(view: &View<'_>, client: ClientRecord) -> bool
    ensures { result ≡ client_agrees (held view.now) client }
{
    client.known as u64 == last_end(view, client.client)
}

// The first client whose known clock is not the end of its last run.
pub fn first_client(view: &View<'_>) -> Option<usize>
    ensures { result ≡ first_bad (client_agrees_at (held view.now)) (length (held view.now).clients) }
{
    view.clients
        .iter()
        .position(|client| !client_agrees(view, *client))
}
