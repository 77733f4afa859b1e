use block::ids::Id;

// The neighbour to which a mark between two units keeps: the one before it or the one after it.
#[derive(Clone, Copy, PartialEq, Eq, Debug, Default)]
pub enum Assoc {
    Before,
    #[default]
    After,
}

// What a mark rests on: a unit, the list that a unit holds, or a root list.
#[derive(Clone, Copy, PartialEq, Eq, Debug)]
pub enum IndexScope {
    Relative(Id),
    Nested(Id),
    Root(u32),
}

// A mark: it keeps its place in a list while units come and go around it.
#[derive(Clone, Copy, PartialEq, Eq, Debug)]
pub struct StickyIndex {
    pub scope: IndexScope,
    pub assoc: Assoc,
}

// Where a mark stands: after the first `index` visible units of a list.
#[derive(Clone, Copy, PartialEq, Eq, Debug)]
pub struct Offset {
    pub list: u32,
    pub index: u32,
    pub assoc: Assoc,
}
