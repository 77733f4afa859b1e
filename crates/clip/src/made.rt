ghost use Rattle.std.specs.Prelude.{◌≡◌};
ghost use Rattle.clip.specs.Pairing.{in_range, listed, sound};
ghost use Rattle.clip.specs.Made.{Made};

use crate::pair::Pair;
use crate::pairs::{MOST_PAIRS, Pairs};
use block::fault::{Code, Fault, Part, Spot};
use block::ids::is_client;

impl Pair {
    // Whether the client and the clock are in range.
    fn is_in_range(self) -> bool
        ensures { result ≡ in_range self }
    {
        is_client(self.client) && self.clock < 1 << 31
    }
}

// Whether some pair is of this client.
pub(crate) fn is_listed(pairs: &[Pair], client: u64) -> bool
    ensures { result ≡ listed client pairs.now }
{
    pairs.iter().any(|p| p.client == client)
}

// Whether each pair is in range, and no client has two.
fn is_sound(pairs: &[Pair]) -> bool
    ensures { result ≡ sound pairs.now }
{
    // a `while let`, since each pair is held against those after it
    let mut rest = pairs;
    while let Some((p, after)) = rest.split_first() {
        if !p.is_in_range() || is_listed(after, p.client) {
            return false;
        }
        rest = after;
    }
    true
}

impl Pairs {
    // A table of these pairs. A pair out of range or a client twice is refused before too many
    // pairs are.
    pub fn new(pairs: &[Pair]) -> Result<Pairs, Fault>
        ensures { Made pairs.now result }
    {
        if !is_sound(pairs) {
            return Err(Fault::new(Part::Clip, Code::OutOfRange, Spot::Nowhere));
        }
        if pairs.len() > MOST_PAIRS {
            return Err(Fault::new(Part::Clip, Code::LimitPassed, Spot::Nowhere));
        }
        let count = pairs.len();
        let mut all = [Pair::default(); MOST_PAIRS];
        all[..count].copy_from_slice(pairs);
        Ok(Pairs { pairs: all, count })
    }
}
