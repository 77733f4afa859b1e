// The bytes from one to another, both among them.
ghost use Rattle.std.specs.Prelude.{◌≡◌};
ghost use Rattle.utf8.specs.Table.{within};

// std's `RangeInclusive` also says whether it was gone over to its end, which a row of the table does not.
#[derive(Clone, Copy, PartialEq, Eq, Debug)]
pub struct ByteRange {
    pub low: u8,
    pub high: u8,
}

impl ByteRange {
    pub fn has(self, byte: u8) -> bool
        ensures { result ≡ within self byte }
    {
        (self.low..=self.high).contains(&byte)
    }
}
