ghost use Rattle.std.specs.Prelude.{◌≡◌, ℕ, ◌<◌, length};
ghost use Rattle.document.specs.Slots.{Written};

use block::slot::Slot;

// Writes into each slot the one that belongs to its number, which a slice's own `fill_with` does not tell its closure.
pub(crate) fn fill_with<F: Fn(usize) -> Slot>(slots: &mut [Slot], slot: F)
    requires callable { (k : ℕ) → k < length slots.old → F.pre slot k }
    ensures { Written (F.post slot) (length slots.old) slots.old slots.new }
{
    for (k, place) in slots.iter_mut().enumerate() {
        *place = slot(k);
    }
}
