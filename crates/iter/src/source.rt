ghost use Rattle.std.specs.Prelude.{ℕ, ◌<◌, List, [], map, IfSome};
ghost use Rattle.iter.specs.Bare.{Bare, bare};
ghost use Rattle.iter.specs.Runs.{Taken, Given};
ghost use Rattle.iter.specs.declared.run.Run.{Run};

use crate::run::Run;

// Gives runs one after another.
pub trait Source {
    // Where a run is.
    type Place: Copy;

    // These runs are still to come.
    ghost ahead: { Self → List (Bare Self.Place) → Type 0 };

    // It is certain which runs are still to come.
    ghost certain: { Self → Type 0 };

    // How many runs are still to come at most.
    ghost left: { Self → ℕ };

    // The next run; none exactly if none is still to come, and then nothing changes.
    // It is no `Iterator`: what is still to come is said by a relation, and generic code asks for it
    // through the trait's own clauses.
    fn next(&mut self) -> Option<Run<Self::Place>>
        ensures taken { (ws : List (Bare Self.Place)) → ahead self.old ws → Taken ahead self.old ws result self.new }
        ensures given { Given ahead certain self.old result self.new }
        ensures nearer { IfSome result (λ _. left self.new < left self.old) };
}

// Takes all the runs that are still to come. Where it is certain which they are, there are such runs.
pub fn exhaust<S: Source>(source: &mut S)
    ensures { S.Source.certain source.old → ((ws : List (Run S.Place)) × S.Source.ahead source.old (map bare ws)) × S.Source.ahead source.new [] }
{
    while let Some(_run) = source.next() {}
}
