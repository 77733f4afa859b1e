ghost use Rattle.std.specs.Prelude.{◌≡◌, ℕ, ◌+◌, ◌^◌, ◌<◌, ◌≤◌, length, Ok};
ghost use Rattle.utf8.specs.Reading.{character_at, characters};
ghost use Rattle.utf8.specs.Table.{utf8_char};
ghost use Rattle.utf8.specs.Texts.{Spelled};
ghost use Rattle.document.specs.Slots.{place_of, byte_slot, text_slot, Filled};

use crate::slots::fill_with;
use block::kind::Kind;
use block::slot::Slot;
use utf8::character::length_at;
use utf8::text::locate;

// A slot for each byte from the first on.
pub(crate) fn fill_bytes(start: u32, slots: &mut [Slot])
    requires { start + length slots.old < 2 ^ 32 }
    ensures { Filled (byte_slot start) slots.old slots.new }
{
    fill_with(
        slots,
        |k| Slot::Content {
            kind: Kind::Text,
            start: start + k as u32,
            len: 1,
        },
    );
}

// Where a character of a text begins.
fn place_of(text: &[u8], index: usize) -> usize
    ensures { index < length (characters utf8_char text.now) → result ≡ place_of (characters utf8_char text.now) index }
{
    locate(text, index).map_or(0, |(at, _len)| at)
}

// How many bytes the character has that begins here.
fn length_here(text: &[u8], at: usize) -> usize
    ensures { (n : ℕ) → character_at utf8_char text.now at ≡ Ok n → result ≡ n }
{
    length_at(text, at).unwrap_or(0)
}

// A slot for each character of a text, from a character on.
pub(crate) fn fill_characters(text: &[u8], start: u32, from: usize, slots: &mut [Slot])
    requires spelled { Spelled utf8_char (characters utf8_char text.now) text.now }
    requires room { (from + length slots.old ≤ length (characters utf8_char text.now)) × (start + length text.now < 2 ^ 32) }
    ensures { Filled (λ k. text_slot start (characters utf8_char text.now) (from + k)) slots.old slots.new }
{
    // No `fill_with`: each character begins where the one before it ends.
    let mut at = place_of(text, from);
    for slot in slots.iter_mut() {
        let len = length_here(text, at);
        *slot = Slot::Content {
            kind: Kind::Text,
            start: start + at as u32,
            len: len as u32,
        };
        at += len;
    }
}
