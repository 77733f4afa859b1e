use crate::records::{dead, linked, root, run};
use block::fault::{Code, Fault, Spot};
use block::ids::Id;
use block::kind::Kind;
use block::slot::Slot;
use document::document::Document;
use document::examine::verdict;
use reader::reader::Reader;
use store::records::{ClientRecord, EntryRecord, ListRecord, RunRecord, View};
use store::refusal::fault_at;

// "ab" of client 5, "XY" of client 9, dead, and "c" of client 5.
fn three_runs() -> [RunRecord; 3] {
    [
        linked(run(Kind::Text, 5, 0, 2, 0, 0), None, Some(1)),
        linked(dead(run(Kind::Text, 9, 0, 2, 0, 1)), Some(0), Some(2)),
        linked(run(Kind::Text, 5, 2, 1, 0, 2), Some(1), None),
    ]
}

const CLIENTS: [ClientRecord; 2] = [
    ClientRecord {
        client: 5,
        known: 3,
    },
    ClientRecord {
        client: 9,
        known: 2,
    },
];

const ENTRIES: [EntryRecord; 3] = [
    EntryRecord { start: 0, len: 2 },
    EntryRecord { start: 2, len: 2 },
    EntryRecord { start: 4, len: 1 },
];

const BYTES: [u8; 5] = [97, 98, 88, 89, 99];

fn small(runs: &[RunRecord], list: ListRecord) -> Option<Fault> {
    verdict(&View {
        runs,
        lists: &[list],
        clients: &CLIENTS,
        entries: &ENTRIES,
        bytes: &BYTES,
    })
    .err()
}

#[test]
fn the_small_document_is_accepted(rt: HostRuntime) {
    assert_eq!(rt; small(&three_runs(), root(Some(0), 3)), None);
}

#[test]
fn damage_is_told_by_record(rt: HostRuntime) {
    let runs = three_runs();
    assert_eq!(rt;
        small(&runs, root(Some(3), 3)),
        Some(fault_at(Code::OutOfRange, Spot::ListRecord(0)))
    );
    assert_eq!(rt;
        small(&runs, root(Some(0), 2)),
        Some(fault_at(Code::Disagreement, Spot::ListRecord(0)))
    );
    assert_eq!(rt;
        small(&runs, root(None, 3)),
        Some(fault_at(Code::Disagreement, Spot::RunRecord(0)))
    );
    let [a, b, c] = runs;
    let gap = RunRecord {
        id: Id {
            client: 5,
            clock: 3,
        },
        ..c
    };
    assert_eq!(rt;
        small(&[a, b, gap], root(Some(0), 3)),
        Some(fault_at(Code::Overlap, Spot::RunRecord(2)))
    );
    let short = RunRecord { len: 1, ..b };
    assert_eq!(rt;
        small(&[a, short, c], root(Some(0), 3)),
        Some(fault_at(Code::Disagreement, Spot::ClientRecord(1)))
    );
    let long = RunRecord { entry: 3, ..c };
    assert_eq!(rt;
        small(&[a, b, long], root(Some(0), 3)),
        Some(fault_at(Code::OutOfRange, Spot::RunRecord(2)))
    );
}

// Three characters of two, three and one bytes, and a list that holds two JSON values: the slot of a
// unit, and how many values its run has from there on, up to three.
fn mixed(place: u32, offset: u32) -> Option<(usize, Slot)> {
    let view = View {
        runs: &[
            linked(run(Kind::Text, 1, 0, 3, 0, 0), None, Some(1)),
            linked(run(Kind::List, 1, 3, 1, 0, 3), Some(0), None),
            run(Kind::Json, 1, 4, 2, 1, 1),
        ],
        lists: &[
            root(Some(0), 4),
            ListRecord {
                start: Some(2),
                holder: Some(Id {
                    client: 1,
                    clock: 3,
                }),
                len: 2,
            },
        ],
        clients: &[ClientRecord {
            client: 1,
            known: 6,
        }],
        entries: &[
            EntryRecord { start: 0, len: 6 },
            EntryRecord { start: 6, len: 1 },
            EntryRecord { start: 7, len: 2 },
        ],
        bytes: &[0xC3, 0xA9, 0xE2, 0x89, 0xA2, 0x61, 0x31, 0x32, 0x33],
    };
    let document = Document::examine(&view).ok()?;
    let mut slots = [Slot::Empty; 3];
    let count = document.read(place, offset, &mut slots);
    Some((count, slots[0]))
}

fn content(kind: Kind, start: u32, len: u32) -> Slot {
    Slot::Content { kind, start, len }
}

#[test]
fn values_are_read_run_by_run(rt: HostRuntime) {
    assert_eq!(rt; mixed(0, 0), Some((3, content(Kind::Text, 0, 2))));
    assert_eq!(rt; mixed(0, 1), Some((2, content(Kind::Text, 2, 3))));
    assert_eq!(rt; mixed(0, 2), Some((1, content(Kind::Text, 5, 1))));
    assert_eq!(rt; mixed(0, 3), Some((0, Slot::Empty)));
    assert_eq!(rt; mixed(1, 0), Some((1, Slot::List(1))));
    assert_eq!(rt; mixed(2, 1), Some((1, content(Kind::Json, 7, 2))));
    assert_eq!(rt; mixed(3, 0), Some((0, Slot::Empty)));
}
