ghost use Rattle.std.specs.Prelude.{◌≡◌, ◌≤◌, true, length, is_ok, None};
ghost use Rattle.store.specs.Limits.{used};
ghost use Rattle.document.specs.Examined.{unless_fault};
ghost use Rattle.document.specs.Meaning.{meaning_of};
ghost use Rattle.edit.specs.Aims.{table_fault};
ghost use Rattle.edit.specs.Creation.{root_fault, rooted, created, Blank};
ghost use Rattle.edit.specs.Edits.{all_of};

use block::fault::{Code, Fault, Part, Spot};
use store::records::ListRecord;
use store::tables::{LISTS, Tables};

// Refuses a number of roots that no document has, or that the tables have no room for.
fn fit_roots(room: usize, roots: u32) -> Result<(), Fault>
    ensures { result ≡ unless_fault (root_fault room roots) }
{
    if roots == 0 || roots as usize > LISTS {
        return Err(Fault::new(Part::Edit, Code::OutOfRange, Spot::Nowhere));
    }
    if roots as usize > room {
        return Err(Fault::new(Part::Edit, Code::LimitPassed, Spot::Nowhere));
    }
    Ok(())
}

// The first lists are empty roots.
fn root(lists: &mut [ListRecord], count: usize)
    requires { count ≤ length lists.old }
    ensures { lists.new ≡ rooted lists.old count }
{
    lists[..count].fill(ListRecord::default());
}

// A new document with so many roots and no runs; what the tables held is no longer in use.
pub fn create(tables: &mut Tables<'_>, roots: u32) -> Result<(), Fault>
    ensures answer { result ≡ unless_fault (root_fault (length tables.old.lists.records.now) roots) }
    ensures tables { all_of tables.new ≡ created (all_of tables.old) roots (root_fault (length tables.old.lists.records.now) roots) }
    ensures examined { is_ok result ≡ true → table_fault tables.new ≡ None }
    ensures blank { is_ok result ≡ true → Blank roots (meaning_of (used tables.new)) }
{
    fit_roots(tables.lists.records.len(), roots)?;
    root(&mut *tables.lists.records, roots as usize);
    tables.runs.count = 0;
    tables.lists.count = roots;
    tables.clients.count = 0;
    tables.entries.count = 0;
    tables.bytes.count = 0;
    Ok(())
}
