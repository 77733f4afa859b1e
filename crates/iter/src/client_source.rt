ghost use Rattle.std.specs.Prelude.{◌≡◌, ◌-◌};
ghost use Rattle.iter.specs.Runs.{Apart, ByClock};

use crate::run::Run;
use crate::source::Source;
use reader::reader::Reader;

// A client's listed runs, in the order of their clocks.
#[derive(Drop)]
pub struct ClientSource<R: Reader> {
    reader: R,
    client: u64,
    clock: u32,
}

impl<R: Reader> ClientSource<R> {
    // The runs from a clock on. The first of them may begin before it.
    pub fn open(reader: R, client: u64, clock: u32) -> ClientSource<R>
        ensures { result ≡ record { reader = reader; client = client; clock = clock } }
    {
        ClientSource {
            reader,
            client,
            clock,
        }
    }

    // Gives the reader back.
    pub fn close(self) -> R
        ensures { result ≡ self.reader }
    {
        self.reader
    }
}

impl<R: Reader> Source for ClientSource<R> {
    type Place = R::Place;

    ghost ahead = { λ s ws. Apart (R.Reader.stretch s.reader) × ByClock (R.Reader.meaning s.reader) (R.Reader.stretch s.reader) s.client s.clock ws };

    ghost certain = { λ s. Apart (R.Reader.stretch s.reader) };

    ghost left = { λ s. (R.Reader.meaning s.reader).known s.client - s.clock };

    fn next(&mut self) -> Option<Run<R::Place>> {
        let place = self.reader.nearest(self.client, self.clock)?;
        let about = self.reader.describe(place)?;
        self.clock = about.id.clock + about.len;
        Some(Run { place, about })
    }
}
