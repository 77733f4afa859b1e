// Which characters a text may have: all, or only those up to U+FFFF.
#[derive(Clone, Copy, PartialEq, Eq, Debug)]
pub enum Planes {
    All,
    Basic,
}
