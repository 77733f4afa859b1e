// A text: how many characters it has, and where each one lies.
ghost use Rattle.std.specs.Prelude.{◌≡◌};
ghost use Rattle.utf8.specs.Table.{utf8_char, basic_char};
ghost use Rattle.utf8.specs.Rows.{rows};
ghost use Rattle.utf8.specs.Reading.{counted, located};
ghost use Rattle.utf8.specs.Texts.{Counted, Located, Short, Sums, Unique};
ghost use Rattle.utf8.specs.Scalars.{Encodings};

use crate::character::measure;
use crate::planes::Planes;

// How many characters a text has among those of these planes, or the offset of the first wrong byte.
fn count_in(planes: Planes, text: &[u8]) -> Result<usize, usize>
    ensures value { result ≡ counted (rows planes) text.now }
    ensures means { Counted (rows planes) text.now result }
    ensures unique { Unique (rows planes) text.now }
    ensures sums { Sums (rows planes) text.now }
{
    let mut count = 0;
    let mut at = 0;
    // A `while`, since each character says how far the next one is.
    while at < text.len() {
        at += measure(planes, text, at)?;
        count += 1;
    }
    Ok(count)
}

// How many characters a text has; or the offset of the first byte that no text has there,
// which is the text's length where it ends inside a character.
pub fn count(text: &[u8]) -> Result<usize, usize>
    ensures value { result ≡ counted utf8_char text.now }
    ensures means { Counted utf8_char text.now result }
    ensures unique { Unique utf8_char text.now }
    ensures sums { Sums utf8_char text.now }
{
    count_in(Planes::All, text)
}

// The same for a text with no character above U+FFFF: one is refused at its first byte.
pub fn count_basic(text: &[u8]) -> Result<usize, usize>
    ensures value { result ≡ counted basic_char text.now }
    ensures means { Counted basic_char text.now result }
    ensures unique { Unique basic_char text.now }
    ensures sums { Sums basic_char text.now }
    ensures short { Short }
    ensures encodings { Encodings basic_char 0x10000 }
{
    count_in(Planes::Basic, text)
}

// The offset and the length of the character with this index, the first having 0; none where there are not so many,
// or the bytes are no text up to its end.
pub fn locate(text: &[u8], index: usize) -> Option<(usize, usize)>
    ensures value { result ≡ located utf8_char text.now index }
    ensures means { Located utf8_char text.now index result }
{
    let mut at = 0;
    for _ in 0..index {
        at += measure(Planes::All, text, at).ok()?;
    }
    let length = measure(Planes::All, text, at).ok()?;
    Some((at, length))
}
