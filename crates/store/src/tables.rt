ghost use Rattle.std.specs.Prelude.{◌≡◌, true, false, length, take, MatchResult};
ghost use Rattle.block.specs.declared.fault.Code.TheVariants.{OutOfRange};
ghost use Rattle.block.specs.declared.fault.Spot.TheVariants.{Nowhere};
ghost use Rattle.store.specs.Limits.{counts_fit, count_fits, Lent};
ghost use Rattle.store.specs.Refusals.{fault_at};
ghost use Rattle.store.specs.Records.{held};

use crate::records::{ClientRecord, EntryRecord, ListRecord, RunRecord, View};
use crate::refusal::fault_at;
use block::fault::{Code, Fault, Spot};

pub const RUNS: usize = 4096;

pub const LISTS: usize = 256;

pub const CLIENTS: usize = 64;

pub const ENTRIES: usize = 8192;

pub const BYTES: usize = 65536;

// Whether no table has more records in use than a document may have.
pub fn counts_fit(view: &View<'_>) -> bool
    ensures { result ≡ counts_fit (held view.now) }
{
    view.runs.len() <= RUNS
        && view.lists.len() <= LISTS
        && view.clients.len() <= CLIENTS
        && view.entries.len() <= ENTRIES
        && view.bytes.len() <= BYTES
}

// A table with room for its records, and how many of them are in use. The count stands beside the lent
// records since there is room behind them for new ones: memory is fixed, and there is no heap.
pub struct Table<'a, T> {
    pub records: &'a mut [T],
    pub count: u32,
}

impl<'a, T> Table<'a, T> {
    // The records in use; refused where the count is past the table or the limit.
    pub fn in_use(&self, limit: usize) -> Result<&[T], Fault>
        ensures { MatchResult result (λ xs. (count_fits self.now.count (length self.now.records.now) limit ≡ true) × (xs.now ≡ take self.now.count self.now.records.now)) (λ f. (count_fits self.now.count (length self.now.records.now) limit ≡ false) × (f ≡ fault_at OutOfRange Nowhere)) }
    {
        let count = self.count as usize;
        if count > self.records.len() || count > limit {
            return Err(fault_at(Code::OutOfRange, Spot::Nowhere));
        }
        Ok(&self.records[..count])
    }
}

// The tables of a document.
pub struct Tables<'a> {
    pub runs: Table<'a, RunRecord>,
    pub lists: Table<'a, ListRecord>,
    pub clients: Table<'a, ClientRecord>,
    pub entries: Table<'a, EntryRecord>,
    pub bytes: Table<'a, u8>,
}

impl<'a> Tables<'a> {
    // The records in use; refused where a count is past its table or its limit.
    pub fn view(&self) -> Result<View<'_>, Fault>
        ensures { Lent self.now result }
    {
        Ok(View {
            runs: self.runs.in_use(RUNS)?,
            lists: self.lists.in_use(LISTS)?,
            clients: self.clients.in_use(CLIENTS)?,
            entries: self.entries.in_use(ENTRIES)?,
            bytes: self.bytes.in_use(BYTES)?,
        })
    }
}
