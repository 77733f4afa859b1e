#![tactic(auto)]

ghost use Rattle.examples.specs.Small.{Table};

// What the definitions say of a small document, as one table. It is a theorem: the call answers how
// many rows it has.
pub fn table_stands() -> u8
    ensures { Table }
{
    16
}
