ghost use Rattle.std.specs.Prelude.{◌≡◌, map};
ghost use Rattle.block.specs.Units.{Meaning};
ghost use Rattle.clip.specs.Made.{limit_of};
ghost use Rattle.history.specs.Piles.{under, laid};

use clip::pairs::Pairs;

// One table whose clip shows what a pile of clips shows; none for no clips.
pub(crate) fn join_all(clips: &[Pairs]) -> Option<Pairs>
    ensures { (m : Meaning) → laid result m ≡ under (map limit_of clips.now) m }
{
    let (first, rest) = clips.split_first()?;
    Some(rest.iter().fold(*first, |all, table| all.join(*table)))
}
