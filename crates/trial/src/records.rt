use block::ids::Id;
use block::kind::Kind;
use store::records::{ListRecord, RunRecord};

// A live run of a list, with no neighbours and no successor.
pub(crate) fn run(
    kind: Kind,
    client: u64,
    clock: u32,
    len: u32,
    list: u32,
    entry: u32,
) -> RunRecord {
    RunRecord {
        id: Id { client, clock },
        len,
        kind: u8::from(kind),
        live: true,
        list: Some(list),
        entry,
        ..RunRecord::default()
    }
}

pub(crate) fn linked(run: RunRecord, left: Option<u32>, right: Option<u32>) -> RunRecord {
    RunRecord { left, right, ..run }
}

pub(crate) fn dead(run: RunRecord) -> RunRecord {
    RunRecord { live: false, ..run }
}

pub(crate) fn root(start: Option<u32>, len: u32) -> ListRecord {
    ListRecord {
        start,
        len,
        ..ListRecord::default()
    }
}
