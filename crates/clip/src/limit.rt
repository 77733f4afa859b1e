ghost use Rattle.std.specs.Prelude.{◌≡◌};
ghost use Rattle.clip.specs.Made.{pairs_of, limit_of};

use crate::pair::Pair;
use crate::pairs::Pairs;

impl Pairs {
    // The pairs of the table.
    pub(crate) fn as_slice(&self) -> &[Pair]
        ensures { result.now ≡ pairs_of self.now }
    {
        &self.pairs[..self.count]
    }

    // The clock from which a client's units are hidden; 0 for a client without a pair.
    pub fn limit(&self, client: u64) -> u32
        ensures { result ≡ limit_of self.now client }
    {
        // By its place: `find` would take two instructions more for each pair.
        let pairs = self.as_slice();
        pairs
            .iter()
            .position(|p| p.client == client)
            .map_or(0, |at| pairs[at].clock)
    }
}
