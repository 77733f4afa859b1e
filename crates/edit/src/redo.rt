ghost use Rattle.std.specs.Prelude.{◌≡◌, ◌<◌, true, length, is_ok, None};
ghost use Rattle.store.specs.Limits.{used};
ghost use Rattle.store.specs.Records.{held};
ghost use Rattle.document.specs.Meaning.{meaning_of};
ghost use Rattle.history.specs.Events.{Step};
ghost use Rattle.edit.specs.Aims.{redo_placed, redo_aimed, table_fault};
ghost use Rattle.edit.specs.Edits.{all_of, with_all, redone_by, edited, answer};
ghost use Rattle.edit.specs.Happenings.{renewal, happened};

use crate::aim::{passed, placed};
use block::fault::{Code, Fault, Part, Spot};
use block::ids::Id;
use store::records::View;
use store::tables::Tables;

// The run that gets a successor; refused where it is live, or has one.
fn redo_placed(view: &View<'_>, id: Id, successor: Id) -> Result<usize, Fault>
    ensures { result ≡ redo_placed (held view.now) id successor }
{
    let i = placed(view, id)?;
    placed(view, successor)?;
    let run = view.run(i);
    if run.live || run.redone.is_some() {
        return Err(Fault::new(Part::Edit, Code::Misplaced, Spot::Unit(id)));
    }
    Ok(i)
}

fn redo_aim(tables: &Tables<'_>, id: Id, successor: Id) -> Result<usize, Fault>
    ensures { result ≡ redo_aimed tables.now id successor }
{
    let view = passed(tables)?;
    redo_placed(&view, id, successor)
}

fn renew(tables: &mut Tables<'_>, i: usize, successor: Id)
    requires { i < length (all_of tables.old).all.runs }
    ensures { all_of tables.new ≡ with_all (all_of tables.old) (redone_by successor (all_of tables.old).all i) }
{
    tables.runs.records[i].redone = Some(successor);
}

// The dead run of the unit has this successor from now on.
pub fn redo(tables: &mut Tables<'_>, id: Id, successor: Id) -> Result<(), Fault>
    ensures answer { result ≡ answer (redo_aimed tables.old id successor) }
    ensures tables { all_of tables.new ≡ edited (redone_by successor) (all_of tables.old) (redo_aimed tables.old id successor) }
    ensures examined { is_ok result ≡ true → table_fault tables.new ≡ None }
    ensures step { Step (meaning_of (used tables.old)) (happened (renewal successor) (used tables.old) (redo_aimed tables.old id successor)) (meaning_of (used tables.new)) }
{
    let i = redo_aim(tables, id, successor)?;
    renew(tables, i, successor);
    Ok(())
}
