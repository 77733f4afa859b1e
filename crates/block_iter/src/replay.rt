ghost use Rattle.std.specs.Prelude.{◌≡◌, ℕ, ◌+◌, ◌≤◌, List, length, drop, None, Some, MatchResult};
ghost use Rattle.std.specs.Result.{result_unwrap_or};
ghost use Rattle.block.specs.Units.{UnitOf};
ghost use Rattle.block.specs.Plain.{plain_run};
ghost use Rattle.block_iter.specs.Cursors.{Same, visible_of};
ghost use Rattle.block_iter.specs.Replays.{Room, Ready, Performed, Played, Plays, Replays, counted, too_small};

use crate::block_iter::BlockIter;
use block::call::Call;
use block::fault::Fault;
use block::slot::Slot;
use reader::reader::Reader;

// Where calls left the cursor, and how many slots their reads filled.
#[derive(Clone, Copy, PartialEq, Eq, Debug)]
pub struct Replayed {
    pub index: u32,
    pub used: usize,
}

// Why no call was made: the list is not there, or a buffer has fewer places than are needed.
#[derive(Clone, Copy, PartialEq, Eq, Debug)]
pub enum Refusal {
    Refused(Fault),
    FewOutcomes { needed: usize },
    FewSlots { needed: usize },
}

// How far calls come, in numbers: the index, and how many slots their reads fill.
#[derive(Clone, Copy)]
struct Tally {
    index: u32,
    used: u32,
    ghost within: { used ≤ index },
}

impl Tally {
    // The numbers after one more call, on a list of `len` visible units.
    fn after(self, len: u32, call: Call) -> Tally
        ensures index { result.index ≡ (counted len (self.index, self.used) call).0 }
        ensures used { result.used ≡ (counted len (self.index, self.used) call).1 }
    {
        let asked = call.asked();
        if len.saturating_sub(self.index) < asked {
            return self;
        }
        Tally {
            index: self.index + asked,
            used: self.used + call.filled(),
        }
    }
}

// How many slots the reads among the calls fill, on a list of `len` visible units.
fn slots_needed(len: u32, calls: &[Call]) -> u32
    ensures { (l : ℕ) (vs : List UnitOf) → len ≡ length vs → result ≡ length (plain_run l vs calls.now).shown }
{
    let start = Tally { index: 0, used: 0 };
    calls
        .iter()
        .fold(start, |tally, call| tally.after(len, *call))
        .used
}

// Whether the buffers have the places that the calls need; if not, the refusal.
fn room_for(len: u32, calls: &[Call], outcomes: usize, slots: usize) -> Result<(), Refusal>
    ensures { (l : ℕ) (vs : List UnitOf) → len ≡ length vs → MatchResult result (λ _. too_small l vs calls.now outcomes slots ≡ None) (λ e. too_small l vs calls.now outcomes slots ≡ Some e) }
{
    if outcomes < calls.len() {
        return Err(Refusal::FewOutcomes {
            needed: calls.len(),
        });
    }
    let needed = slots_needed(len, calls) as usize;
    if slots < needed {
        return Err(Refusal::FewSlots { needed });
    }
    Ok(())
}

// Makes one call, and says how many of the slots it filled, from the first on.
fn perform<R: Reader>(
    cursor: &mut BlockIter<R>,
    call: Call,
    slots: &mut [Slot],
) -> Result<usize, Fault>
    requires { Room R.Reader.meaning cursor.old call (length slots.old) }
    ensures same { Same cursor.old cursor.new }
    ensures plain { Performed R.Reader.meaning R.Reader.shown cursor.old call result cursor.new slots.new }
    ensures most { result_unwrap_or result 0 ≤ length slots.old }
    ensures rest { drop (result_unwrap_or result 0) slots.new ≡ drop (result_unwrap_or result 0) slots.old }
{
    match call {
        Call::Skip(n) => {
            cursor.try_forward(n)?;
            Ok(0)
        }
        Call::Read(n) => {
            let count = n as usize;
            cursor.allows(count)?;
            cursor.slice(&mut slots[..count])?;
            Ok(count)
        }
    }
}

// Makes the calls one after the other, and says how many slots they filled.
fn perform_all<R: Reader>(
    cursor: &mut BlockIter<R>,
    calls: &[Call],
    outcomes: &mut [Result<(), Fault>],
    slots: &mut [Slot],
) -> usize
    requires { Ready R.Reader.meaning cursor.old calls.now (length outcomes.old) (length slots.old) }
    ensures same { Same cursor.old cursor.new }
    ensures played { Played (visible_of R.Reader.meaning cursor.old) cursor.old.list (R.Reader.shown cursor.old.reader) calls.now outcomes.old outcomes.new slots.old slots.new cursor.new.index result }
{
    let mut used = 0;
    // By the index: a loop over `outcomes.iter_mut().zip(calls)` was tried, and what it wrote is not
    // told at its end.
    for (i, call) in calls.iter().enumerate() {
        let filled = perform(cursor, *call, &mut slots[used..]);
        outcomes[i] = filled.map(|_| ());
        used += filled.unwrap_or(0);
    }
    used
}

// Makes the calls with a fresh cursor, or none of them where a buffer is too small.
fn play<R: Reader>(
    cursor: &mut BlockIter<R>,
    calls: &[Call],
    outcomes: &mut [Result<(), Fault>],
    slots: &mut [Slot],
) -> Result<Replayed, Refusal>
    requires { cursor.old.index ≡ 0 }
    ensures same { Same cursor.old cursor.new }
    ensures answer { Plays (visible_of R.Reader.meaning cursor.old) cursor.old.list (R.Reader.shown cursor.old.reader) calls.now outcomes.old outcomes.new slots.old slots.new result }
{
    room_for(cursor.len(), calls, outcomes.len(), slots.len())?;
    let used = perform_all(cursor, calls, outcomes, slots);
    Ok(Replayed {
        index: cursor.index(),
        used,
    })
}

// Opens a cursor, makes the calls one after the other, refused ones too, and closes it. Where the list
// is not there or a buffer is too small, no call is made and nothing changes.
pub fn replay<R: Reader>(
    reader: R,
    list: u32,
    calls: &[Call],
    outcomes: &mut [Result<(), Fault>],
    slots: &mut [Slot],
) -> (R, Result<Replayed, Refusal>)
    ensures back { result.0 ≡ reader }
    ensures answer { Replays (R.Reader.meaning reader) (R.Reader.shown reader) (R.Reader.layers reader) list calls.now outcomes.old outcomes.new slots.old slots.new result.1 }
{
    // A match, since the refusal hands the reader back: `let else` would lose it.
    let mut cursor = match BlockIter::open(reader, list) {
        Ok(cursor) => cursor,
        Err((back, fault)) => return (back, Err(Refusal::Refused(fault))),
    };
    let played = play(&mut cursor, calls, outcomes, slots);
    (cursor.close(), played)
}
