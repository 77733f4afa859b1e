ghost use Rattle.std.specs.Prelude.{◌≡◌};
ghost use Rattle.store.specs.Records.{held};
ghost use Rattle.document.specs.Finds.{find_run, is_due, Due};
ghost use Rattle.document.specs.Meaning.{clock_in};

use block::ids::Id;
use store::records::{RunRecord, View};

// The first run that has the unit.
pub fn run_with(view: &View<'_>, id: Id) -> Option<usize>
    ensures { result ≡ find_run (held view.now) id }
{
    view.runs
        .iter()
        .position(|run| id.offset_in(run.id, run.len).is_some())
}

// The clock up to which a client's units are known.
#[tactic(auto, unfolding(crate::specs::Meaning::clock_in))]
pub fn clock_of(view: &View<'_>, client: u64) -> u32
    ensures { result ≡ clock_in (held view.now).clients client }
{
    view.clients
        .iter()
        .find(|record| record.client == client)
        .map_or(0, |record| record.known)
}

fn is_due(client: u64, clock: u32, run: RunRecord) -> bool
    ensures { result ≡ is_due client clock run }
{
    run.list.is_some() && run.id.client == client && (clock as u64) < run.end()
}

// A client's listed run at a clock, or the next one after it.
pub(crate) fn due_run(view: &View<'_>, client: u64, clock: u32) -> Option<usize>
    ensures { Due (held view.now) client clock result }
{
    (0..view.runs.len())
        .filter(|i| is_due(client, clock, view.run(*i)))
        .min_by_key(|i| view.run(*i).id.clock)
}
