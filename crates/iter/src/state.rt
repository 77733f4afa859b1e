// How far a range has come: it has not met its start, it is between its marks, or it has ended.
#[derive(Clone, Copy, PartialEq, Eq, Debug)]
pub enum RangeIterState {
    Opened,
    InRange,
    Closed,
}
