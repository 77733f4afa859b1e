ghost use Rattle.std.specs.Prelude.{Some, ◌++◌, codes};
ghost use Rattle.std.specs.Fmt.{decimal};

use std::error::Error;
use std::fmt;

// A number that names nothing.
#[derive(Clone, Copy, PartialEq, Eq, Debug)]
pub struct UnknownNumber {
    pub number: u8,
}

impl fmt::Display for UnknownNumber {
    ghost output = { λ unknown. Some (codes "nothing has the number " ++ decimal unknown.number) };

    fn fmt<W: fmt::Write>(&self, f: &mut fmt::Formatter<W>) -> fmt::Result {
        let number = self.number;
        write!(f, "nothing has the number {number}")
    }
}

impl Error for UnknownNumber {}
