// One character of a text.
ghost use Rattle.std.specs.Prelude.{◌≡◌, length, take_while, zip};
ghost use Rattle.utf8.specs.Table.{utf8_char, within};
ghost use Rattle.utf8.specs.Rows.{rows};
ghost use Rattle.utf8.specs.Reading.{character_at};
ghost use Rattle.utf8.specs.Texts.{Measured};
ghost use Rattle.utf8.specs.Scalars.{Encodings};

use crate::byte_range::ByteRange;
use crate::first_byte::rest_in;
use crate::planes::Planes;

// How many bytes, from the first on, lie in the ranges at their places.
fn fitting(ranges: &[ByteRange], bytes: &[u8]) -> usize
    ensures { result ≡ length (take_while (λ p. within p.0 p.1) (zip ranges.now bytes.now)) }
{
    ranges
        .iter()
        .zip(bytes)
        .take_while(|(range, byte)| range.has(**byte))
        .count()
}

// The length of the character at this offset, among those of these planes, or the offset of the first wrong byte.
pub(crate) fn measure(planes: Planes, text: &[u8], at: usize) -> Result<usize, usize>
    ensures { result ≡ character_at (rows planes) text.now at }
{
    let Some(first) = text.get(at) else {
        return Err(text.len());
    };
    let Some(rest) = rest_in(planes, *first) else {
        return Err(at);
    };
    let fit = fitting(rest, &text[at + 1..]);
    if fit == rest.len() {
        Ok(1 + fit)
    } else {
        Err(at + 1 + fit)
    }
}

// The length, one to four bytes, of the character that begins at this offset. The number in an `Err`, and all that
// it has to tell, is the offset of the first byte that no character has there, which is the text's length where the
// text ends before the character does.
pub fn length_at(text: &[u8], at: usize) -> Result<usize, usize>
    ensures value { result ≡ character_at utf8_char text.now at }
    ensures means { Measured utf8_char text.now at result }
    ensures encodings { Encodings utf8_char 0x110000 }
{
    measure(Planes::All, text, at)
}
