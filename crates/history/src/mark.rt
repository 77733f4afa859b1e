ghost use Rattle.std.specs.Prelude.{◌≡◌, ℕ, List, map};
ghost use Rattle.block.specs.Units.{Meaning};
ghost use Rattle.clip.specs.Made.{limit_of};
ghost use Rattle.sticky_index.specs.Marks.{on, offset_of};
ghost use Rattle.sticky_index.specs.declared.index.IndexScope.TheVariants.{Relative};
ghost use Rattle.history.specs.Lasting.{UnitsLast};
ghost use Rattle.history.specs.Moves.{Moves};
ghost use Rattle.history.specs.Piles.{under};

use crate::pile::join_all;
use block::fault::Fault;
use block::ids::Id;
use clip::pairs::Pairs;
use reader::reader::Reader;
use sticky_index::index::{Assoc, Offset, StickyIndex};

// Where a mark on a unit has moved to, in any document: a pile of clips over the end of any history.
pub fn moved<R: Reader>(reader: &R, id: Id, assoc: Assoc) -> Result<Offset, Fault>
    ensures resolves { result ≡ offset_of (R.Reader.layers reader.now) (R.Reader.meaning reader.now) (on (Relative id) assoc) }
    ensures moves { (o : Meaning) (limits : List (ℕ → ℕ)) → R.Reader.meaning reader.now ≡ under limits o → Moves o limits id assoc result }
    ensures lasts { UnitsLast }
{
    StickyIndex::from_id(id, assoc).get_offset(reader)
}

// The same under clips that are laid on a reader, the first as the topmost.
pub fn moved_under<R: Reader>(
    reader: &R,
    clips: &[Pairs],
    id: Id,
    assoc: Assoc,
) -> Result<Offset, Fault>
    ensures resolves { result ≡ offset_of (R.Reader.layers reader.now) (under (map limit_of clips.now) (R.Reader.meaning reader.now)) (on (Relative id) assoc) }
    ensures moves { Moves (R.Reader.meaning reader.now) (map limit_of clips.now) id assoc result }
{
    match join_all(clips) {
        None => moved(reader, id, assoc),
        Some(table) => moved(&table.over(reader), id, assoc),
    }
}
