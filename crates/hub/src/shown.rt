use crate::parse;
use crate::parse::cut;
use crate::trouble::Trouble;
use block::slot::{Slot, Value};
use planner::planner::steps_from;
use reader::reader::Reader;
use std::io;
use sticky_index::index::{Assoc, StickyIndex};

// How many steps are shown at most.
const STEPS: usize = 64;

// The document as it is shown now, and where its answers are printed.
#[derive(Drop)]
pub(crate) struct Shown<'a, P: Print, R: Reader> {
    pub(crate) rt: &'a P,
    pub(crate) reader: &'a R,
}

impl<'a, P: Print, R: Reader> Shown<'a, P, R> {
    // The mark of `after|before K in LIST` or `after|before on ID`; where it is refused, the refusal is
    // printed after the name.
    pub(crate) fn mark(&self, name: &str, text: &str) -> Result<Option<StickyIndex>, Trouble> {
        let (lean, text) = cut(text);
        let (at, text) = cut(text);
        let (word, list) = cut(text);
        let assoc = parse::lean(lean)?;
        if at == "on" {
            return Ok(Some(StickyIndex::from_id(parse::id(word)?, assoc)));
        }
        let (Ok(index), Ok(list)) = (at.parse::<u32>(), list.parse::<u32>()) else {
            return Err(Trouble::Line("a mark stands at a number in a list"));
        };
        match StickyIndex::at(self.reader, list, index, assoc) {
            Ok(mark) => Ok(Some(mark)),
            Err(fault) => {
                println!(self.rt; "{name}: {fault}")?;
                Ok(None)
            }
        }
    }

    // Where a mark is.
    pub(crate) fn print_where(&self, name: &str, mark: StickyIndex) -> io::Result<()> {
        match mark.get_offset(self.reader) {
            Err(fault) => println!(self.rt; "{name}: {fault}"),
            Ok(at) => {
                let index = at.index;
                let list = at.list;
                println!(self.rt; "{name}: at {index} in list {list}")
            }
        }
    }

    // Where a mark is, and the steps that follow, up to this many.
    pub(crate) fn print_following(
        &self,
        name: &str,
        mark: StickyIndex,
        count: u32,
    ) -> io::Result<()> {
        let mut slots = [Slot::Empty; STEPS];
        let room = slots.len().min(count as usize);
        match steps_from(self.reader, mark, &mut slots[..room]) {
            Err(fault) => println!(self.rt; "{name}: {fault}"),
            Ok(steps) => {
                let index = steps.at.index;
                let list = steps.at.list;
                print!(self.rt; "{name}: at {index} in list {list}, then")?;
                self.print_steps(&slots[..steps.read])
            }
        }
    }

    // The visible steps of a list, up to a limit, and how many there are.
    pub(crate) fn print_list(&self, list: u32) -> io::Result<()> {
        let mut slots = [Slot::Empty; STEPS];
        let answer = StickyIndex::from_type(self.reader, list, Assoc::Before)
            .and_then(|start| steps_from(self.reader, start, &mut slots))
            .and_then(|steps| Ok((steps.read, self.reader.length(list)?)));
        match answer {
            Err(fault) => println!(self.rt; "list {list}: {fault}"),
            Ok((read, length)) => {
                print!(self.rt; "list {list}, {length} long:")?;
                self.print_steps(&slots[..read])
            }
        }
    }

    // A client's known clock.
    pub(crate) fn print_known(&self, client: u64) -> io::Result<()> {
        let known = self.reader.known(client);
        println!(self.rt; "client {client}: known up to {known}")
    }

    // The steps in the slots, one after the other.
    fn print_steps(&self, slots: &[Slot]) -> io::Result<()> {
        let mut gap = " ";
        for slot in slots {
            print!(self.rt; "{gap}")?;
            gap = ", ";
            match self.reader.show(*slot) {
                None => print!(self.rt; "-")?,
                Some(value) => self.print_value(value)?,
            }
        }
        println!(self.rt; "")
    }

    // A value, for people.
    fn print_value(&self, value: Value<'_>) -> io::Result<()> {
        if let Value::List(list) = value {
            return print!(self.rt; "[list {list}]");
        }
        let text = value
            .bytes()
            .and_then(|bytes| std::str::from_utf8(bytes).ok())
            .unwrap_or("?");
        print!(self.rt; "{text}")
    }
}
