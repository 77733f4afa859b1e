ghost use Rattle.std.specs.Prelude.{◌≡◌};
ghost use Rattle.store.specs.Records.{held};
ghost use Rattle.edit.specs.Aims.{listed_run, placed, Passed, aimed};

use block::fault::{Code, Fault, Part, Spot};
use block::ids::Id;
use document::examine::verdict;
use document::find::clock_of;
use store::records::View;
use store::tables::Tables;

// The run of a list that has the unit; `run_with` of a document may find one that is in no list.
fn listed_run(view: &View<'_>, id: Id) -> Option<usize>
    ensures { result ≡ listed_run (held view.now) id }
{
    view.runs.iter().position(|run| run.list.is_some() && id.offset_in(run.id, run.len).is_some())
}

// The run of a list that has the unit; refused where the unit is not known, or in no list.
pub(crate) fn placed(view: &View<'_>, id: Id) -> Result<usize, Fault>
    ensures { result ≡ placed (held view.now) id }
{
    if id.clock >= clock_of(view, id.client) {
        return Err(Fault::new(Part::Edit, Code::NotKnown, Spot::Unit(id)));
    }
    listed_run(view, id).ok_or(Fault::new(Part::Edit, Code::NotListed, Spot::Unit(id)))
}

// The records in use; refused where the tables do not pass examination.
pub(crate) fn passed<'b>(tables: &'b Tables<'_>) -> Result<View<'b>, Fault>
    ensures { Passed tables.now result }
{
    let view = tables.view()?;
    verdict(&view)?;
    Ok(view)
}

// The run that an edit of a unit touches.
pub(crate) fn aim(tables: &Tables<'_>, id: Id) -> Result<usize, Fault>
    ensures { result ≡ aimed tables.now id }
{
    let view = passed(tables)?;
    placed(&view, id)
}
