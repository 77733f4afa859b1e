ghost use Rattle.std.specs.Prelude.{◌≡◌};
ghost use Rattle.store.specs.Refusals.{fault_at};

use block::fault::{Code, Fault, Part, Spot};

// A fault that the tables have: one name for the part, for the crates that examine them.
pub fn fault_at(code: Code, spot: Spot) -> Fault
    ensures { result ≡ fault_at code spot }
{
    Fault::new(Part::Tables, code, spot)
}
