ghost use Rattle.std.specs.Prelude.{◌≡◌};
ghost use Rattle.reader.specs.Answers.{faces};
ghost use Rattle.store.specs.Records.{held};
ghost use Rattle.document.specs.Slots.{shown_in};

use block::slot::{Slot, Value};
use store::records::View;

// A slot as a value whose bytes are a part of the content.
pub(crate) fn shown<'a>(view: &View<'a>, slot: Slot) -> Option<Value<'a>>
    ensures { faces result ≡ shown_in (held view.now) slot }
{
    match slot {
        Slot::Empty => None,
        Slot::List(list) => {
            view.lists.get(list as usize)?;
            Some(Value::List(list))
        }
        Slot::Content { kind, start, len } => {
            let start = start as usize;
            let bytes = view.bytes.get(start..start + len as usize)?;
            Value::new(kind, bytes)
        }
    }
}
