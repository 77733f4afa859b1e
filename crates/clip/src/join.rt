ghost use Rattle.std.specs.Prelude.{◌≡◌, ◌<◌, true, length, min, [], ◌∷◌, ◌++◌};
ghost use Rattle.clip.specs.Pairing.{sound};
ghost use Rattle.clip.specs.Made.{pairs_of};
ghost use Rattle.clip.specs.Joined.{Joined, OneClip};

use crate::clip::Clip;
use crate::made::is_listed;
use crate::pair::Pair;
use crate::pairs::{MOST_PAIRS, Pairs};

impl Pair {
    // The pair with the lesser of its clock and another.
    fn lowered(self, clock: u32) -> Pair
        ensures { result ≡ record { client = self.client; clock = min self.clock clock } }
    {
        Pair {
            clock: self.clock.min(clock),
            ..self
        }
    }
}

impl Pairs {
    // A table of no pairs.
    fn empty() -> Pairs
        ensures { pairs_of result ≡ [] }
    {
        Pairs {
            pairs: [Pair::default(); MOST_PAIRS],
            count: 0,
        }
    }

    // One pair more.
    fn push(&mut self, pair: Pair)
        requires room { length (pairs_of self.old) < 64 }
        requires good { sound (pairs_of self.old ++ pair ∷ []) ≡ true }
        ensures { pairs_of self.new ≡ pairs_of self.old ++ pair ∷ [] }
    {
        self.pairs[self.count] = pair;
        self.count += 1;
    }

    // Two tables as one, whose clip shows what the two clips show as a pile. A client that either
    // lacks is hidden whole, so no more pairs are left than one table has.
    pub fn join(self, other: Pairs) -> Pairs
        ensures joined { Joined self other result }
        ensures pile { OneClip }
    {
        let theirs = other.as_slice();
        let mut both = Pairs::empty();
        for p in self.as_slice() {
            if is_listed(theirs, p.client) {
                both.push(p.lowered(other.limit(p.client)));
            }
        }
        both
    }
}

impl<R> Clip<Clip<R>> {
    // Two clips as one. It shows what they show; a refusal passes one clip less.
    pub fn merged(self) -> Clip<R>
        ensures below { result.below ≡ self.below.below }
        ensures pairs { Joined self.pairs self.below.pairs result.pairs }
    {
        self.pairs.join(self.below.pairs).over(self.below.below)
    }
}
