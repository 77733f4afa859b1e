use crate::trouble::Trouble;
use block::ids::Id;
use block::kind::Kind;
use clip::pair::Pair;
use std::alloc::Global;
use sticky_index::index::Assoc;

// The first word of a line, and what follows.
pub(crate) fn cut(text: &str) -> (&str, &str) {
    match text.split_once(' ') {
        None => (text, ""),
        Some((word, rest)) => (word, rest.trim()),
    }
}

// A number; `reason` says what was wanted in place of the word.
pub(crate) fn number(word: &str, reason: &'static str) -> Result<u32, Trouble> {
    word.parse::<u32>().map_err(|_| Trouble::Line(reason))
}

fn client_and_clock(word: &str) -> Option<(u64, u32)> {
    let (client, clock) = word.split_once(':')?;
    Some((client.parse().ok()?, clock.parse().ok()?))
}

// `CLIENT:CLOCK`, as 5:0.
pub(crate) fn id(word: &str) -> Result<Id, Trouble> {
    let (client, clock) = client_and_clock(word).ok_or(Trouble::Line(
        "an id is CLIENT:CLOCK, as 5:0",
    ))?;
    Ok(Id { client, clock })
}

// The pairs of a clip, as 5:2 9:0.
pub(crate) fn pairs(heap: Global, text: &str) -> Result<Vec<Pair>, Trouble> {
    let mut all = Vec::new(heap);
    for word in text.split_whitespace() {
        let (client, clock) = client_and_clock(word).ok_or(Trouble::Line(
            "a pair is CLIENT:CLOCK, as 5:2",
        ))?;
        all.push(Pair { client, clock })?;
    }
    Ok(all)
}

// A kind by its name.
pub(crate) fn kind(word: &str) -> Result<Kind, Trouble> {
    Kind::ALL
        .into_iter()
        .find(|kind| kind.name() == word)
        .ok_or(Trouble::Line("no such kind"))
}

// Whether a run is live: a `bool`, as in its record.
pub(crate) fn life(word: &str) -> Result<bool, Trouble> {
    match word {
        "live" => Ok(true),
        "dead" => Ok(false),
        _ => Err(Trouble::Line("a run is live or dead")),
    }
}

pub(crate) fn lean(word: &str) -> Result<Assoc, Trouble> {
    match word {
        "after" => Ok(Assoc::After),
        "before" => Ok(Assoc::Before),
        _ => Err(Trouble::Line("a mark leans after or before")),
    }
}
