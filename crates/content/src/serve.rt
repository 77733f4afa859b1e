ghost use Rattle.std.specs.Prelude.{◌≡◌, ℕ, ◌<◌, length};
ghost use Rattle.store.specs.First.{first_bad, passing};
ghost use Rattle.store.specs.Records.{held};
ghost use Rattle.content.specs.Content.{has_entry, has_entry_at, entry_serves_at, has_byte, has_byte_at, byte_serves_at};

use store::records::{EntryRecord, RunRecord, View};

fn has_entry(run: RunRecord, e: usize) -> bool
    ensures { result ≡ has_entry run e }
{
    // two comparisons, here and below: with `Range::contains` this pass took 15% more instructions
    let first = run.entry as usize;
    first <= e && e < first + run.entries() as usize
}

// How many runs have this entry.
fn runs_served(view: &View<'_>, e: usize) -> usize
    ensures { result ≡ passing (has_entry_at (held view.now) e) (length (held view.now).runs) }
{
    view.runs.iter().filter(|run| has_entry(**run, e)).count()
}

// The first entry that does not serve just one run.
pub fn first_entry(view: &View<'_>) -> Option<usize>
    ensures { result ≡ first_bad (entry_serves_at (held view.now)) (length (held view.now).entries) }
{
    (0..view.entries.len()).find(|&e| runs_served(view, e) != 1)
}

fn has_byte(entry: EntryRecord, b: usize) -> bool
    ensures { result ≡ has_byte entry b }
{
    let start = entry.start as usize;
    start <= b && b < start + entry.len as usize
}

// How many entries have this byte.
fn entries_served(view: &View<'_>, b: usize) -> usize
    ensures { result ≡ passing (has_byte_at (held view.now) b) (length (held view.now).entries) }
{
    // a sum of ones: with `filter` and `count` this pass, over all entries for each byte, took half as long again
    view.entries
        .iter()
        .map(|entry| usize::from(has_byte(*entry, b)))
        .sum()
}

// The first byte that does not serve just one entry.
pub fn first_byte(view: &View<'_>) -> Option<usize>
    ensures { result ≡ first_bad (byte_serves_at (held view.now)) (length (held view.now).bytes) }
{
    (0..view.bytes.len()).find(|&b| entries_served(view, b) != 1)
}
