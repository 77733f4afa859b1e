ghost use Rattle.std.specs.Prelude.{◌≡◌, List};
ghost use Rattle.iter.specs.Runs.{FromHere, RunsFrom, span_left, Opens};
ghost use Rattle.iter.specs.Between.{run_ids, unit_ids};
ghost use Rattle.iter.specs.Bare.{Bare};

use crate::run::Run;
use crate::source::Source;
use block::fault::Fault;
use reader::reader::Reader;

// The runs of a list, from left to right.
#[derive(Drop)]
pub struct ListSource<R: Reader> {
    reader: R,
    at: Option<R::Place>,
}

impl<R: Reader> ListSource<R> {
    // All the runs of a list, which have exactly the list's units. Where the list is not there, the reader comes back with its refusal.
    pub fn open(reader: R, list: u32) -> Result<ListSource<R>, (R, Fault)>
        ensures opens { Opens R.Reader.meaning R.Reader.stretch R.Reader.layers reader list result }
        ensures units { (ws : List (Bare R.Place)) → RunsFrom (R.Reader.meaning reader) (R.Reader.stretch reader) list 0 ws → run_ids ws ≡ unit_ids ((R.Reader.meaning reader).units list) }
    {
        // Both arms take the reader, so no `map` and `map_err` can stand here.
        match reader.first(list) {
            Err(e) => Err((reader, e)),
            Ok(at) => Ok(ListSource { reader, at }),
        }
    }

    // Gives the reader back.
    pub fn close(self) -> R
        ensures { result ≡ self.reader }
    {
        self.reader
    }
}

impl<R: Reader> Source for ListSource<R> {
    type Place = R::Place;

    ghost ahead = { λ s ws. FromHere (R.Reader.meaning s.reader) (R.Reader.stretch s.reader) s.at ws };

    ghost certain = { λ _. Unit {0} };

    ghost left = { λ s. span_left (R.Reader.meaning s.reader) (R.Reader.stretch s.reader) s.at };

    fn next(&mut self) -> Option<Run<R::Place>> {
        let place = self.at?;
        let about = self.reader.describe(place)?;
        self.at = self.reader.right(place);
        Some(Run { place, about })
    }
}
