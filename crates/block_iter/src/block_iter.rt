ghost use Rattle.std.specs.Prelude.{◌≡◌, ◌-◌, ◌≤◌, true, false, length, is_ok, ◌==◌};
ghost use Rattle.block_iter.specs.Cursors.{Opened, Same, Moved, ShowsNext, Next, answer, visible_of};

use crate::position::Position;
use block::fault::{Code, Fault, Part, Spot};
use block::slot::Slot;
use reader::reader::Reader;
use std::marker::Model;

// A cursor over the visible units of one list.
#[derive(Drop)]
pub struct BlockIter<R: Reader> {
    reader: R,
    list: u32,
    len: u32,
    at: Position<R::Place>,
    index: u32,
}

// A contract sees the fields, and each cursor is sound. (With a ghost field in place of the model
// `ArrayIter` could not hold a cursor over a lent reader.)
impl<R: Reader> Model for BlockIter<R> {
    ghost use Rattle.block_iter.specs.Cursors.{Cursor, Sound, cursor};

    ghost Value = { Cursor R R.Place };

    ghost view = { λ c. cursor c.reader c.list c.len c.at.place c.at.rel c.index };

    ghost invariant = { λ c. Sound R.Reader.meaning R.Reader.stretch (cursor c.reader c.list c.len c.at.place c.at.rel c.index) };
}

impl<R: Reader> BlockIter<R> {
    // A cursor before the first visible unit of a list. Where the list is not there, the reader comes
    // back with its refusal.
    pub fn open(reader: R, list: u32) -> Result<BlockIter<R>, (R, Fault)>
        ensures { Opened R.Reader.meaning R.Reader.stretch R.Reader.layers reader list result }
    {
        // No `map_err` with `?`: its closure would take the reader along.
        let len = match reader.length(list) {
            Ok(len) => len,
            Err(fault) => return Err((reader, fault)),
        };
        let place = match reader.first(list) {
            Ok(place) => place,
            Err(fault) => return Err((reader, fault)),
        };
        Ok(BlockIter {
            reader,
            list,
            len,
            at: Position { place, rel: 0 },
            index: 0,
        })
    }

    // Whether `count` visible units are left; if not, the refusal.
    pub(crate) fn allows(&self, count: usize) -> Result<(), Fault>
        ensures room { is_ok result ≡ true → count ≤ self.now.len - self.now.index }
        ensures answer { result ≡ answer self.now.list (visible_of R.Reader.meaning self.now) self.now.index count }
    {
        if (self.left() as usize) < count {
            return Err(Fault::new(Part::Cursor, Code::BeyondLength, Spot::List(self.list)));
        }
        Ok(())
    }

    // Passes `count` visible units; where fewer are left it refuses, and nothing changes.
    pub fn try_forward(&mut self, count: u32) -> Result<(), Fault>
        ensures same { Same self.old self.new }
        ensures refused { is_ok result ≡ false → self.new ≡ self.old }
        ensures moved { Moved R.Reader.meaning R.Reader.stretch self.old count result self.new }
    {
        self.allows(count as usize)?;
        self.at = self.at.walk(&self.reader, count as usize);
        self.index += count;
        Ok(())
    }

    // Fills the slots with the next visible units; where fewer are left it refuses, and nothing changes.
    pub fn slice(&mut self, slots: &mut [Slot]) -> Result<(), Fault>
        ensures same { Same self.old self.new }
        ensures refused { is_ok result ≡ false → (self.new ≡ self.old) × (slots.new ≡ slots.old) }
        ensures moved { Moved R.Reader.meaning R.Reader.stretch self.old (length slots.old) result self.new }
        ensures values { is_ok result ≡ true → ShowsNext R.Reader.meaning R.Reader.shown self.old slots.new }
    {
        let count = slots.len();
        self.allows(count)?;
        self.at = self.at.fill(&self.reader, slots);
        self.index += count as u32;
        Ok(())
    }

    // The next visible unit's value; none at the end, and then nothing changes.
    pub fn read_value(&mut self) -> Option<Slot>
        ensures same { Same self.old self.new }
        ensures next { Next R.Reader.meaning R.Reader.stretch R.Reader.shown self.old result self.new }
    {
        let mut one = [Slot::Empty];
        self.slice(&mut one).ok()?;
        Some(one[0])
    }

    // Whether no visible unit is left.
    pub fn finished(&self) -> bool
        ensures { result ≡ (self.now.index == length (visible_of R.Reader.meaning self.now)) }
    {
        self.index == self.len
    }

    // How many visible units were passed.
    pub fn index(&self) -> u32
        ensures { result ≡ self.now.index }
    {
        self.index
    }

    // How many visible units the list has.
    pub fn len(&self) -> u32
        ensures len { result ≡ self.now.len }
        ensures counted { result ≡ length (visible_of R.Reader.meaning self.now) }
    {
        self.len
    }

    // How many visible units are left.
    pub fn left(&self) -> u32
        ensures left { result ≡ self.now.len - self.now.index }
        ensures counted { result ≡ length (visible_of R.Reader.meaning self.now) - self.now.index }
    {
        self.len.saturating_sub(self.index)
    }

    // The reader, to ask it while the cursor is open.
    pub fn reader(&self) -> &R
        ensures { result.now ≡ self.now.reader }
    {
        &self.reader
    }

    // Gives the reader back.
    pub fn close(self) -> R
        ensures { result ≡ self.reader }
    {
        self.reader
    }
}
