ghost use Rattle.std.specs.Prelude.{◌≡◌, ℕ, ◌<◌, true, false, length, is_ok, None, Ok};
ghost use Rattle.store.specs.Limits.{used};
ghost use Rattle.store.specs.Records.{run_at};
ghost use Rattle.document.specs.Meaning.{meaning_of};
ghost use Rattle.history.specs.Events.{Step};
ghost use Rattle.edit.specs.Aims.{aimed, table_fault};
ghost use Rattle.edit.specs.Edits.{all_of, with_all, tombstoned, edited, answer};
ghost use Rattle.edit.specs.Happenings.{death, happened};

use crate::aim::aim;
use block::fault::Fault;
use block::ids::Id;
use store::tables::Tables;

fn kill(tables: &mut Tables<'_>, i: usize)
    requires examined { table_fault tables.old ≡ None }
    requires within { i < length (used tables.old).runs }
    ensures { all_of tables.new ≡ with_all (all_of tables.old) (tombstoned (all_of tables.old).all i) }
{
    let run = tables.runs.records[i];
    tables.runs.records[i].live = false;
    if let Some(l) = run.list {
        tables.lists.records[l as usize].len -= run.visible_len();
    }
}

// The run of the unit is dead from now on; a dead one stays so.
pub fn tombstone(tables: &mut Tables<'_>, id: Id) -> Result<(), Fault>
    ensures answer { result ≡ answer (aimed tables.old id) }
    ensures tables { all_of tables.new ≡ edited tombstoned (all_of tables.old) (aimed tables.old id) }
    ensures again { (i : ℕ) → aimed tables.old id ≡ Ok i → (run_at (used tables.old) i).live ≡ false → all_of tables.new ≡ all_of tables.old }
    ensures examined { is_ok result ≡ true → table_fault tables.new ≡ None }
    ensures step { Step (meaning_of (used tables.old)) (happened death (used tables.old) (aimed tables.old id)) (meaning_of (used tables.new)) }
{
    let i = aim(tables, id)?;
    kill(tables, i);
    Ok(())
}
