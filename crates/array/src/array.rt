ghost use Rattle.std.specs.Prelude.{◌≡◌, ◌<◌, ◌≤◌, length, Some, IfSome, MatchResult, ⊤};
ghost use Rattle.block.specs.Units.{seen};
ghost use Rattle.block.specs.Values.{face};
ghost use Rattle.reader.specs.Answers.{Counted, faces, no_list};
ghost use Rattle.block_iter.specs.Cursors.{Sound, Same};
ghost use Rattle.array.specs.Arrays.{element, values_left, SlotOf, Yields};

use block::fault::Fault;
use block::slot::{Slot, Value};
use block_iter::block_iter::BlockIter;
use reader::reader::Reader;

// The slot of visible unit `index` of a list; none from the length on.
fn slot_at<R: Reader>(reader: &R, list: u32, index: u32) -> Option<Slot>
    ensures { SlotOf (R.Reader.shown reader.now) (element (seen ((R.Reader.meaning reader.now).units list)) index) result }
{
    let mut cursor = BlockIter::open(reader, list).ok()?;
    cursor.try_forward(index).ok()?;
    cursor.read_value()
}

// A list of a reader, as an array of the values of its visible units.
#[derive(Drop)]
pub struct ArrayRef<'r, R: Reader> {
    reader: &'r R,
    list: u32,
}

impl<'r, R: Reader> ArrayRef<'r, R> {
    pub fn new(reader: &'r R, list: u32) -> ArrayRef<'r, R>
        ensures { (result.reader.now ≡ reader.now) × (result.list ≡ list) }
    {
        ArrayRef { reader, list }
    }

    // How many elements there are; refused where the list is not there.
    pub fn len(&self) -> Result<u32, Fault>
        ensures { Counted (R.Reader.meaning self.now.reader.now) (R.Reader.layers self.now.reader.now) self.now.list result }
    {
        self.reader.length(self.list)
    }

    // The value at an index; none from the length on.
    pub fn get(&self, index: u32) -> Option<Value<'r>>
        ensures { faces result ≡ element (seen ((R.Reader.meaning self.now.reader.now).units self.now.list)) index }
    {
        let slot = slot_at(self.reader, self.list, index)?;
        self.reader.show(slot)
    }

    // The values from the first on; refused where the list is not there.
    pub fn iter(&self) -> Result<ArrayIter<'r, R>, Fault>
        ensures { MatchResult result (λ i. (self.now.list < (R.Reader.meaning self.now.reader.now).lists) × (i.inner.reader.now ≡ self.now.reader.now) × (i.inner.list ≡ self.now.list) × (i.inner.index ≡ 0) × Sound (λ s. R.Reader.meaning s.now) (λ s. R.Reader.stretch s.now) i.inner) (λ e. ((R.Reader.meaning self.now.reader.now).lists ≤ self.now.list) × (e ≡ no_list (R.Reader.layers self.now.reader.now) self.now.list)) }
    {
        let inner = BlockIter::open(self.reader, self.list).map_err(|(_, fault)| fault)?;
        Ok(ArrayIter { inner })
    }
}

// Steps through the values of an array.
#[derive(Drop)]
pub struct ArrayIter<'r, R: Reader> {
    inner: BlockIter<&'r R>,
}

// The elements that are left, from the cursor's index on.
impl<'r, R: Reader> Iterator for ArrayIter<'r, R> {
    ghost use Rattle.std.specs.Iterator.{YieldsFirstBy, MakesProgress, UpTo, item_count};
    ghost use Rattle.std.specs.Iterator.SizeHint.{IsWithinCount};

    type Item = Value<'r>;

    ghost next_gives = { YieldsFirstBy face (values_left R.Reader.meaning) };

    ghost remaining = { item_count (values_left R.Reader.meaning) };

    // The next value; none at the end.
    fn next(&mut self) -> Option<Value<'r>>
        ensures same { Same self.old.inner self.new.inner }
        ensures next { Yields (λ s. R.Reader.meaning s.now) (λ s. R.Reader.stretch s.now) self.old.inner result self.new.inner }
        ensures steps { YieldsFirstBy face (values_left R.Reader.meaning) self.old result self.new }
        ensures goes { MakesProgress (λ _. ⊤) (item_count (values_left R.Reader.meaning)) self.old result self.new }
    {
        let reader: &'r R = *self.inner.reader();
        let slot = self.inner.read_value()?;
        reader.show(slot)
    }

    // How many elements are left, exactly.
    fn size_hint(&self) -> (usize, Option<usize>)
        ensures lower { IsWithinCount result.0 (item_count (values_left R.Reader.meaning) self.now) }
        ensures upper { IfSome result.1 (UpTo (item_count (values_left R.Reader.meaning) self.now)) }
        ensures exact { let n = length (values_left R.Reader.meaning self.now) in result ≡ (n, Some n) }
    {
        let left = self.inner.left() as usize;
        (left, Some(left))
    }
}

impl<'r, R: Reader> ArrayIter<'r, R> {
    // Ends the steps.
    pub fn close(self) {}
}
