ghost use Rattle.std.specs.Prelude.{ℕ, ◌<◌, IfOk, IfSome};
ghost use Rattle.iter.specs.Ranges.{Course};
ghost use Rattle.iter.specs.Steps.{Told};

use crate::slice::ItemSlice;
use block::fault::Fault;

// Gives slices of runs one after another.
pub trait Slices {
    // Where a run is.
    type Place: Copy;

    // These slices are still to come, and in the end perhaps a refusal.
    ghost coming: { Self → Course Self.Place → Type 0 };

    // How many slices are still to come at most.
    ghost left: { Self → ℕ };

    // The next slice, or the refusal; none at the end, and from then on.
    // No `Iterator`: which slices are still to come is only a relation, which generic code asks for by `told`.
    fn next(&mut self) -> Result<Option<ItemSlice<Self::Place>>, Fault>
        ensures told { (c : Course Self.Place) → coming self.old c → Told coming c result self.new }
        ensures fewer { IfOk result (λ next. IfSome next (λ _. left self.new < left self.old)) };
}
