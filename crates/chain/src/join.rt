ghost use Rattle.std.specs.Prelude.{◌≡◌};
ghost use Rattle.store.specs.declared.records.RunRecord.{RunRecord};
ghost use Rattle.chain.specs.Joins.{at, joined};

use store::records::RunRecord;

// Makes of the run with this number another one, if there is such a run.
fn change<F: Fn(RunRecord) -> RunRecord>(runs: &mut [RunRecord], place: Option<u32>, other: F)
    requires { F.IsAlwaysCallable other }
    ensures { (f : RunRecord → RunRecord) → ((r s : RunRecord) → F.post other r s → s ≡ f r) → runs.new ≡ at f runs.old place }
{
    // by index, since a proof knows no element of a slice after `get_mut`
    if let Some(i) = place {
        if (i as usize) < runs.len() {
            let run = runs[i as usize];
            runs[i as usize] = other(run);
        }
    }
}

// Makes a run's record the one with this number, and makes its neighbours name it. Numbers past the table change nothing.
pub fn join(runs: &mut [RunRecord], n: u32, run: RunRecord, left: Option<u32>, right: Option<u32>)
    ensures { runs.new ≡ joined runs.old n run left right }
{
    let rightward = |old: RunRecord| RunRecord {
        right: Some(n),
        ..old
    };
    let leftward = |old: RunRecord| RunRecord {
        left: Some(n),
        ..old
    };
    change(runs, Some(n), |_old| run);
    change(runs, left, rightward);
    change(runs, right, leftward);
}
