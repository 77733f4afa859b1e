use crate::parse;
use crate::parse::cut;
use crate::shown::Shown;
use crate::tables::{print_faults, print_kinds};
use crate::trouble::Trouble;
use clip::pairs::Pairs;
use reader::reader::Reader;
use std::alloc::Global;
use std::collections::HashMap;
use sticky_index::index::StickyIndex;

// Where questions on a document are answered: with the marks, under their names but for those just made,
// and the clips that lie on the document, as one.
#[derive(Drop)]
pub(crate) struct Desk<'a, P: Print, R: Reader> {
    rt: &'a P,
    heap: Global,
    document: &'a R,
    lists: u32,
    made: Vec<(&'a str, StickyIndex)>,
    marks: HashMap<&'a str, StickyIndex>,
    clip: Option<Pairs>,
}

impl<'a, P: Print, R: Reader> Desk<'a, P, R> {
    pub(crate) fn new(rt: &'a P, heap: Global, document: &'a R, lists: u32) -> Desk<'a, P, R> {
        Desk {
            rt,
            heap,
            document,
            lists,
            made: Vec::new(heap),
            marks: HashMap::new(heap),
            clip: None,
        }
    }

    // One question, on the document or on what the clips show of it.
    pub(crate) fn ask(&mut self, line: &'a str) -> Result<(), Trouble> {
        let (word, rest) = cut(line);
        match word {
            "kinds" => print_kinds(self.rt)?,
            "faults" => print_faults(self.rt)?,
            "unclip" => self.clip = None,
            "clip" => self.lay(rest)?,
            _ => match self.clip {
                None => self.ask_shown(self.document, word, rest)?,
                Some(pairs) => self.ask_shown(&pairs.over(self.document), word, rest)?,
            },
        }
        Ok(())
    }

    // One more clip over those that lie there; a clip that is refused changes nothing.
    fn lay(&mut self, text: &str) -> Result<(), Trouble> {
        let pairs = parse::pairs(self.heap, text)?;
        match Pairs::new(pairs.as_slice()) {
            Err(fault) => println!(self.rt; "{fault}")?,
            Ok(new) => self.clip = Some(self.clip.map_or(new, |old| new.join(old))),
        }
        Ok(())
    }

    // One question, on the document as this reader shows it.
    fn ask_shown<S: Reader>(
        &mut self,
        reader: &S,
        word: &str,
        text: &'a str,
    ) -> Result<(), Trouble> {
        let shown = Shown {
            rt: self.rt,
            reader,
        };
        match word {
            "mark" => self.keep(&shown, text)?,
            "where" => match self.mark(text) {
                None => println!(self.rt; "{text}: no such mark")?,
                Some(mark) => shown.print_where(text, mark)?,
            },
            "steps" => self.ask_steps(&shown, text)?,
            "lists" => {
                for list in 0..self.lists {
                    shown.print_list(list)?;
                }
            }
            "known" => match text.parse() {
                Err(_) => println!(self.rt; "known CLIENT")?,
                Ok(client) => shown.print_known(client)?,
            },
            _ => return Err(Trouble::Line("no such word")),
        }
        Ok(())
    }

    // mark NAME after|before K in LIST, or mark NAME after|before on ID
    fn keep<S: Reader>(&mut self, shown: &Shown<'_, P, S>, text: &'a str) -> Result<(), Trouble> {
        let (name, text) = cut(text);
        if let Some(mark) = shown.mark(name, text)? {
            self.made.push((name, mark))?;
        }
        Ok(())
    }

    // The mark of a name, the one made last. Those made since one was last asked for go under their
    // names first, all at once: until then a line `mark` takes no search. Where memory is too short for
    // that, they are searched.
    fn mark(&mut self, name: &str) -> Option<StickyIndex> {
        let made = self.made.as_slice();
        if self.marks.extend(made.iter().copied()).is_ok() {
            self.made = Vec::new(self.heap);
        }
        let late = self
            .made
            .as_slice()
            .iter()
            .rev()
            .find(|made| made.0 == name);
        late.map(|made| made.1).or(self.marks.get(name).copied())
    }

    // steps NAME COUNT
    fn ask_steps<S: Reader>(&mut self, shown: &Shown<'_, P, S>, text: &str) -> Result<(), Trouble> {
        let (name, count) = cut(text);
        let count = parse::number(count, "steps NAME COUNT")?;
        match self.mark(name) {
            None => println!(self.rt; "{name}: no such mark")?,
            Some(mark) => shown.print_following(name, mark, count)?,
        }
        Ok(())
    }
}
