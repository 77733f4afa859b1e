ghost use Rattle.std.specs.Prelude.{◌≡◌, ◌-◌, ◌≤◌};
ghost use Rattle.block_iter.specs.Walks.{visible_in, Stepped, Walked, Took, Filled};

use block::slot::Slot;
use reader::reader::Reader;

// Where a cursor stands: so many units into the run at a place; no place: at the end of its list.
#[derive(Clone, Copy)]
pub(crate) struct Position<P> {
    pub place: Option<P>,
    pub rel: u32,
}

// How many visible units the run at a place has: one expression, here and where marks count.
fn visible_at<R: Reader>(reader: &R, place: R::Place) -> u32
    ensures { result ≡ visible_in (R.Reader.meaning reader.now) (R.Reader.stretch reader.now place) }
{
    reader.describe(place).map_or(0, |run| run.visible_len())
}

impl<P: Copy> Position<P> {
    // Passes as many of `left` visible units as the run at `place` has from here on, and says how many.
    fn step<R: Reader<Place = P>>(self, reader: &R, place: P, left: usize) -> (Position<P>, usize)
        ensures most { result.1 ≤ visible_in (R.Reader.meaning reader.now) (R.Reader.stretch reader.now place) - self.rel }
        ensures passed { Stepped (R.Reader.meaning reader.now) (R.Reader.stretch reader.now) place self.rel left result.0.place result.0.rel result.1 }
    {
        let here = visible_at(reader, place).saturating_sub(self.rel) as usize;
        if left < here {
            let there = Position {
                place: Some(place),
                rel: self.rel + left as u32,
            };
            return (there, left);
        }
        let behind = Position {
            place: reader.right(place),
            rel: 0,
        };
        (behind, here)
    }

    // Reads the units of the run at `place` from here on into the first slots, and passes them.
    fn read<R: Reader<Place = P>>(
        self,
        reader: &R,
        place: P,
        slots: &mut [Slot],
    ) -> (Position<P>, usize)
        ensures { Took (R.Reader.meaning reader.now) (R.Reader.stretch reader.now) (R.Reader.shown reader.now) place self.rel slots.old slots.new result.0.place result.0.rel result.1 }
    {
        let (next, passed) = self.step(reader, place, slots.len());
        if passed == 0 {
            return (next, 0);
        }
        let _n = reader.read(place, self.rel, &mut slots[..passed]);
        (next, passed)
    }

    // Passes `count` visible units, run by run.
    pub(crate) fn walk<R: Reader<Place = P>>(self, reader: &R, count: usize) -> Position<P>
        ensures { Walked (R.Reader.meaning reader.now) (R.Reader.stretch reader.now) self.place self.rel count result.place result.rel }
    {
        // A loop: the walk ends since each run covers units, and `iter::successors` does not say so.
        let mut at = self;
        let mut left = count;
        while left > 0 {
            let Some(place) = at.place else { break };
            let (next, passed) = at.step(reader, place, left);
            at = next;
            left -= passed;
        }
        at
    }

    // Reads as many visible units as there are slots, run by run.
    // (`walk` with a closure that reads would have to say what each call wrote: longer than this loop.)
    pub(crate) fn fill<R: Reader<Place = P>>(self, reader: &R, slots: &mut [Slot]) -> Position<P>
        ensures { Filled (R.Reader.meaning reader.now) (R.Reader.stretch reader.now) (R.Reader.shown reader.now) self.place self.rel slots.new result.place result.rel }
    {
        let mut at = self;
        let mut used = 0;
        while used < slots.len() {
            let Some(place) = at.place else { break };
            let (next, n) = at.read(reader, place, &mut slots[used..]);
            at = next;
            used += n;
        }
        at
    }
}
