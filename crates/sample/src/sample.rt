ghost use Rattle.std.specs.Prelude.{◌≡◌, ◌<◌, ◌≤◌, Some};
ghost use Rattle.reader.specs.Answers.{no_list};
ghost use Rattle.sample.specs.Sample.{sample as meant, span, shows, width, slot_for, told, Stands};
ghost use Rattle.sample.specs.SampleFacts.{sample_lawful, sample_settled, sample_faithful};

use block::fault::{Code, Fault, Part, Spot};
use block::ids::Id;
use block::kind::Kind;
use block::slot::{Slot, Value};
use reader::reader::{Description, Reader};

// A small fixed document, to try the library on. List 0 is a root and has, from left to right: the
// text `ab`, a format mark, the deleted text `XY`, whose successor is the `a`, a unit that holds
// list 1, and the text `c`. List 1 has the text `é`.
#[derive(Clone, Copy)]
pub struct Sample;

// The runs of the document.
#[derive(Clone, Copy, PartialEq, Eq, Debug)]
pub enum Run {
    Ab,
    Bold,
    Xy,
    Nest,
    C,
    Inner,
}

// The bytes that slots point into.
static CONTENT: [u8; 7] = *b"abXYc\xC3\xA9";

fn no_list(list: u32) -> Fault
    ensures { result ≡ no_list 0 list }
{
    Fault::new(Part::Tables, Code::NoSuchList, Spot::List(list))
}

// The run with a client's unit at a clock, and the offset in it. All known units are listed, so there
// is one at each known clock.
fn run_at(client: u64, clock: u32) -> Option<(Run, u32)>
    ensures { Stands client clock result }
{
    match (client, clock) {
        (5, 0 | 1) => Some((Run::Ab, clock)),
        (5, 2) => Some((Run::C, 0)),
        (5, 3) => Some((Run::Bold, 0)),
        (7, 0) => Some((Run::Inner, 0)),
        (9, 0 | 1) => Some((Run::Xy, clock)),
        (9, 2) => Some((Run::Nest, 0)),
        _ => None,
    }
}

// How many values a run has.
fn values_of(run: Run) -> u32
    ensures value { result ≡ width run }
    ensures few { result ≤ 2 }
{
    match run {
        Run::Ab | Run::Xy => 2,
        Run::Nest | Run::C | Run::Inner => 1,
        Run::Bold => 0,
    }
}

// The slot of the unit at an offset of a run.
fn slot_at(run: Run, offset: u32) -> Slot
    requires { offset < 2 }
    ensures { result ≡ slot_for run offset }
{
    match run {
        Run::Ab => Slot::Content {
            kind: Kind::Text,
            start: offset,
            len: 1,
        },
        Run::Bold => Slot::Empty,
        Run::Xy => Slot::Content {
            kind: Kind::Text,
            start: 2 + offset,
            len: 1,
        },
        Run::Nest => Slot::List(1),
        Run::C => Slot::Content {
            kind: Kind::Text,
            start: 4,
            len: 1,
        },
        Run::Inner => Slot::Content {
            kind: Kind::Text,
            start: 5,
            len: 2,
        },
    }
}

// What is said of a live run.
fn live_run(client: u64, clock: u32, len: u32, kind: Kind, list: u32) -> Description
    ensures { result ≡ told client clock len kind list }
{
    Description {
        id: Id { client, clock },
        len,
        kind,
        live: true,
        list,
        redone: None,
    }
}

impl Reader for Sample {
    type Place = Run;

    ghost meaning = { λ _. meant };

    ghost stretch = { λ _ p. Some (span p) };

    ghost shown = { λ _. shows };

    ghost layers = { λ _. 0 };

    ghost lawful = { λ _. sample_lawful };

    ghost settled = { λ _. sample_settled };

    ghost faithful = { λ _. sample_faithful };

    fn first(&self, list: u32) -> Result<Option<Run>, Fault> {
        match list {
            0 => Ok(Some(Run::Ab)),
            1 => Ok(Some(Run::Inner)),
            _ => Err(no_list(list)),
        }
    }

    fn right(&self, place: Run) -> Option<Run> {
        match place {
            Run::Ab => Some(Run::Bold),
            Run::Bold => Some(Run::Xy),
            Run::Xy => Some(Run::Nest),
            Run::Nest => Some(Run::C),
            Run::C | Run::Inner => None,
        }
    }

    fn left(&self, place: Run) -> Option<Run> {
        match place {
            Run::Ab | Run::Inner => None,
            Run::Bold => Some(Run::Ab),
            Run::Xy => Some(Run::Bold),
            Run::Nest => Some(Run::Xy),
            Run::C => Some(Run::Nest),
        }
    }

    fn describe(&self, place: Run) -> Option<Description> {
        let said = match place {
            Run::Ab => live_run(5, 0, 2, Kind::Text, 0),
            Run::Bold => live_run(5, 3, 1, Kind::Format, 0),
            Run::Xy => Description {
                live: false,
                redone: Some(Id {
                    client: 5,
                    clock: 0,
                }),
                ..live_run(9, 0, 2, Kind::Text, 0)
            },
            Run::Nest => live_run(9, 2, 1, Kind::List, 0),
            Run::C => live_run(5, 2, 1, Kind::Text, 0),
            Run::Inner => live_run(7, 0, 1, Kind::Text, 1),
        };
        Some(said)
    }

    fn find(&self, id: Id) -> Option<(Run, u32)> {
        run_at(id.client, id.clock)
    }

    fn nearest(&self, client: u64, clock: u32) -> Option<Run> {
        run_at(client, clock).map(|(run, _)| run)
    }

    fn known(&self, client: u64) -> u32 {
        match client {
            5 => 4,
            7 => 1,
            9 => 3,
            _ => 0,
        }
    }

    fn length(&self, list: u32) -> Result<u32, Fault> {
        match list {
            0 => Ok(4),
            1 => Ok(1),
            _ => Err(no_list(list)),
        }
    }

    fn holder(&self, list: u32) -> Result<Option<Id>, Fault> {
        match list {
            0 => Ok(None),
            1 => Ok(Some(Id {
                client: 9,
                clock: 2,
            })),
            _ => Err(no_list(list)),
        }
    }

    fn read(&self, place: Run, offset: u32, slots: &mut [Slot]) -> usize {
        let left = values_of(place).saturating_sub(offset) as usize;
        let many = left.min(slots.len());
        for (i, slot) in slots[..many].iter_mut().enumerate() {
            *slot = slot_at(place, offset + i as u32);
        }
        many
    }

    fn show(&self, slot: Slot) -> Option<Value<'_>> {
        match slot {
            Slot::Empty => None,
            Slot::List(list) => (list < 2).then_some(Value::List(list)),
            Slot::Content { kind, start, len } => {
                let from = start as usize;
                let bytes = CONTENT.get(from..from + len as usize)?;
                Value::new(kind, bytes)
            }
        }
    }
}
