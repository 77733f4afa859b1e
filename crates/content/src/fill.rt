ghost use Rattle.std.specs.Prelude.{◌≡◌, ℕ, ◌<◌, length};
ghost use Rattle.store.specs.First.{first_bad};
ghost use Rattle.store.specs.Records.{held};
ghost use Rattle.content.specs.Content.{is_text, spells, run_filled, run_filled_at};

use block::kind::Kind;
use store::records::{RunRecord, View};
use utf8::text::count_basic;

fn is_text(run: RunRecord) -> bool
    ensures { result ≡ is_text run }
{
    run.kind() == Kind::Text
}

// Whether the bytes of a run are a text of as many characters as it has units, none above U+FFFF.
fn spells(view: &View<'_>, run: RunRecord) -> bool
    ensures { result ≡ spells (held view.now) run }
{
    count_basic(view.bytes_of(view.entry(run.entry as usize))).is_ok_and(|count| count
        == run.len as usize)
}

fn is_filled(view: &View<'_>, run: RunRecord) -> bool
    ensures { result ≡ run_filled (held view.now) run }
{
    run.entry as usize + run.entries() as usize <= view.entries.len()
        && (!is_text(run) || spells(view, run))
}

// The first run whose content does not fit its kind and length.
pub fn first_run(view: &View<'_>) -> Option<usize>
    ensures { result ≡ first_bad (run_filled_at (held view.now)) (length (held view.now).runs) }
{
    view.runs.iter().position(|run| !is_filled(view, *run))
}
