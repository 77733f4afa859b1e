use block::fault::Code;
use block::kind::Kind;
use std::io;

// The kinds of units, by number, and whether their live units count towards a list's length.
pub(crate) fn print_kinds(rt: &impl Print) -> io::Result<()> {
    for kind in Kind::ALL {
        let number = u8::from(kind);
        let counted = if kind.is_countable() {
            "counted"
        } else {
            "not counted"
        };
        println!(rt; "  {number:>2}  {kind:<10}  {counted}")?;
    }
    Ok(())
}

// The faults, by number.
pub(crate) fn print_faults(rt: &impl Print) -> io::Result<()> {
    for code in Code::ALL {
        let number = u8::from(code);
        println!(rt; "  {number:>2}  {code}")?;
    }
    Ok(())
}
