use crate::build::Store;
use crate::parse;
use crate::parse::cut;
use crate::trouble::Trouble;

// run LIST ID KIND LIFE CONTENT
fn run_line(store: &mut Store, text: &str) -> Result<(), Trouble> {
    let (list, text) = cut(text);
    let (id, text) = cut(text);
    let (kind, text) = cut(text);
    let (life, content) = cut(text);
    let list = parse::number(list, "a list is a number, as 0")?;
    let id = parse::id(id)?;
    let kind = parse::kind(kind)?;
    let live = parse::life(life)?;
    store.add_run(Some(list), id, kind, live, content)
}

// gone ID KIND COUNT
fn gone_line(store: &mut Store, text: &str) -> Result<(), Trouble> {
    let (id, text) = cut(text);
    let (kind, count) = cut(text);
    store.add_run(None, parse::id(id)?, parse::kind(kind)?, false, count)
}

// redone ID SUCCESSOR
fn redone_line(store: &mut Store, text: &str) -> Result<(), Trouble> {
    let (id, successor) = cut(text);
    store.redo(parse::id(id)?, parse::id(successor)?)
}

// Takes a line that tells of the document, and passes over any other.
pub(crate) fn tell(store: &mut Store, line: &str) -> Result<(), Trouble> {
    let (word, rest) = cut(line);
    match word {
        "root" => store.add_list(None),
        "nested" => store.add_list(Some(parse::id(rest)?)),
        "run" => run_line(store, rest),
        "gone" => gone_line(store, rest),
        "redone" => redone_line(store, rest),
        _ => Ok(()),
    }
}

// Whether a line tells of the document.
pub(crate) fn is_told(line: &str) -> bool {
    let (word, _) = cut(line);
    matches!(word, "root" | "nested" | "run" | "gone" | "redone")
}
