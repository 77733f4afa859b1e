ghost use Rattle.std.specs.Prelude.{◌≡◌, ℕ, Some, None, MatchOption};
ghost use Rattle.block.specs.Units.{bytes, nested};
ghost use Rattle.block.specs.Values.{face, part_of};

use crate::kind::Kind;

// A unit's value as its reader keeps it: its kind with a place in the reader's content, or the list
// that it holds. Empty is what a fresh buffer has.
#[derive(Clone, Copy, PartialEq, Eq, Debug)]
pub enum Slot {
    Empty,
    Content { kind: Kind, start: u32, len: u32 },
    List(u32),
}

// A unit's value, with its bytes borrowed from the content, or the list that it holds.
#[derive(Clone, Copy)]
pub enum Value<'a> {
    Json(&'a [u8]),
    Binary(&'a [u8]),
    Text(&'a [u8]),
    Embed(&'a [u8]),
    Any(&'a [u8]),
    Doc(&'a [u8]),
    List(u32),
}

impl<'a> Value<'a> {
    // These bytes as a value of a kind; none for a kind that has no bytes.
    pub fn new(kind: Kind, bytes: &'a [u8]) -> Option<Value<'a>>
        ensures { MatchOption result (part_of kind bytes.now ≡ None) (λ value. part_of kind bytes.now ≡ Some (face value)) }
    {
        match kind {
            Kind::Json => Some(Value::Json(bytes)),
            Kind::Binary => Some(Value::Binary(bytes)),
            Kind::Text => Some(Value::Text(bytes)),
            Kind::Embed => Some(Value::Embed(bytes)),
            Kind::Any => Some(Value::Any(bytes)),
            Kind::Doc => Some(Value::Doc(bytes)),
            Kind::Gc | Kind::Deleted | Kind::Format | Kind::List | Kind::Skip => None,
        }
    }

    // The value's bytes; none for a list.
    pub fn bytes(self) -> Option<&'a [u8]>
        ensures { MatchOption result ((l : ℕ) × ((face self.entry).1 ≡ nested l)) (λ part. (face self.entry).1 ≡ bytes part.now) }
    {
        match self {
            Value::Json(part)
            | Value::Binary(part)
            | Value::Text(part)
            | Value::Embed(part)
            | Value::Any(part)
            | Value::Doc(part) => Some(part),
            Value::List(_) => None,
        }
    }
}
