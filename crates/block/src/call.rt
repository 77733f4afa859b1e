ghost use Rattle.std.specs.Prelude.{◌≡◌};
ghost use Rattle.block.specs.Plain.{asked, filled};

// One call of a cursor: a skip of so many visible units, or a read of them.
#[derive(Clone, Copy, PartialEq, Eq, Debug)]
pub enum Call {
    Skip(u32),
    Read(u32),
}

impl Call {
    // How many visible units the call asks for.
    pub fn asked(self) -> u32
        ensures { result ≡ asked self }
    {
        match self {
            Call::Skip(n) | Call::Read(n) => n,
        }
    }

    // How many slots the call fills if it is accepted.
    pub fn filled(self) -> u32
        ensures { result ≡ filled self }
    {
        match self {
            Call::Skip(_) => 0,
            Call::Read(n) => n,
        }
    }
}
