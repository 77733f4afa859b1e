ghost use Rattle.std.specs.Prelude.{◌≡◌, ◌^◌, Some, nat_lt};
ghost use Rattle.block.specs.Ids.{offset_in, id_text};

use std::fmt;

// A unit's identity: the client that made it, and that client's clock when it did.
#[derive(Clone, Copy, PartialEq, Eq, Debug, Default)]
pub struct Id {
    pub client: u64,
    pub clock: u32,
}

impl Id {
    // How far the unit stands behind the first of so many units of one client, if it is one of them.
    pub fn offset_in(self, first: Id, len: u32) -> Option<u32>
        ensures { result ≡ offset_in self first len }
    {
        if self.client != first.client {
            return None;
        }
        self.clock
            .checked_sub(first.clock)
            .filter(|offset| *offset < len)
    }
}

impl fmt::Display for Id {
    ghost output = { λ id. Some (id_text id) };

    fn fmt<W: fmt::Write>(&self, f: &mut fmt::Formatter<W>) -> fmt::Result {
        let Id { client, clock } = *self;
        write!(f, "{client}:{clock}")
    }
}

// Whether a number may name a client: it has at least eleven leading zero bits, so it is below 2^53
// and a JavaScript peer can hold it.
pub fn is_client(number: u64) -> bool
    ensures { result ≡ nat_lt number (2 ^ 53) }
{
    number.leading_zeros() >= 11
}
