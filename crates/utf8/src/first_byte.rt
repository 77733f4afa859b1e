// What a first byte says of its character: a row of the table in section 4 of RFC 3629.
ghost use Rattle.std.specs.Prelude.{◌≡◌};
ghost use Rattle.std.specs.Option.{option_map};
ghost use Rattle.utf8.specs.Table.{utf8_char};
ghost use Rattle.utf8.specs.Rows.{rest_of, rows, length_from};
ghost use Rattle.utf8.specs.Texts.{Begun};

use crate::byte_range::ByteRange;
use crate::planes::Planes;

const TAIL: ByteRange = ByteRange {
    low: 0x80,
    high: 0xBF,
};

const FROM_90: ByteRange = ByteRange {
    low: 0x90,
    high: 0xBF,
};

const FROM_A0: ByteRange = ByteRange {
    low: 0xA0,
    high: 0xBF,
};

const TO_8F: ByteRange = ByteRange {
    low: 0x80,
    high: 0x8F,
};

const TO_9F: ByteRange = ByteRange {
    low: 0x80,
    high: 0x9F,
};

// The ranges of the bytes after this first byte; none where no character begins with it.
fn rest(first: u8) -> Option<&'static [ByteRange]>
    ensures { option_map (λ x. x.now) result ≡ rest_of utf8_char first }
{
    match first {
        0x00..=0x7F => Some(&[]),
        0xC2..=0xDF => Some(&[TAIL]),
        0xE0 => Some(&[FROM_A0, TAIL]),
        0xE1..=0xEC => Some(&[TAIL, TAIL]),
        0xED => Some(&[TO_9F, TAIL]),
        0xEE..=0xEF => Some(&[TAIL, TAIL]),
        0xF0 => Some(&[FROM_90, TAIL, TAIL]),
        0xF1..=0xF3 => Some(&[TAIL, TAIL, TAIL]),
        0xF4 => Some(&[TO_8F, TAIL, TAIL]),
        _ => None,
    }
}

// The same among the characters of these planes: in the basic one no character has four bytes.
pub(crate) fn rest_in(planes: Planes, first: u8) -> Option<&'static [ByteRange]>
    ensures { option_map (λ x. x.now) result ≡ rest_of (rows planes) first }
{
    match planes {
        Planes::All => rest(first),
        Planes::Basic if first < 0xF0 => rest(first),
        Planes::Basic => None,
    }
}

// How many bytes a character has that begins with this byte, one to four; none where no character does.
pub fn length(first: u8) -> Option<usize>
    ensures value { result ≡ length_from utf8_char first }
    ensures means { Begun first result }
{
    rest(first).map(|ranges| 1 + ranges.len())
}
