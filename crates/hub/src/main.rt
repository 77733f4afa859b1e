#![tactic(auto)]

use crate::build::Store;
use crate::desk::Desk;
use crate::tell::{is_told, tell};
use crate::trouble::Trouble;
use document::document::Document;
use reader::reader::Reader;
use std::alloc::Global;
use std::io;

mod build;
mod desk;
mod parse;
mod shown;
mod tables;
mod tell;
mod trouble;

// The lines of standard input.
fn read_lines(rt: &(impl Input + AllocGlobal)) -> io::Result<Vec<String>> {
    let mut lines = Vec::new(rt.alloc());
    for line in rt.lines(rt.alloc()) {
        lines.push(line?)?;
    }
    Ok(lines)
}

// The tables that the lines tell of; each bad line is named, and then there are none.
fn told(rt: &impl Print, heap: Global, lines: &[String]) -> io::Result<Option<Store>> {
    let mut store = Store::new(heap);
    let mut good = true;
    for (number, line) in (1u64..).zip(lines) {
        if let Err(trouble) = tell(&mut store, line.as_str().trim()) {
            println!(rt; "line {number}: {trouble}")?;
            good = false;
        }
    }
    Ok(good.then_some(store))
}

// Answers the questions among the lines, one after the other.
fn answer<'a, P: Print, R: Reader>(
    rt: &P,
    mut desk: Desk<'a, P, R>,
    lines: &'a [String],
) -> io::Result<()> {
    for (number, line) in (1u64..).zip(lines) {
        let text = line.as_str().trim();
        if text.is_empty() || text.starts_with('#') || is_told(text) {
            continue;
        }
        println!(rt; "> {text}")?;
        match desk.ask(text) {
            Ok(()) => {}
            Err(Trouble::Output(error)) => return Err(error),
            Err(trouble) => println!(rt; "line {number}: {trouble}")?,
        }
    }
    Ok(())
}

fn main(rt: HostRuntime) -> io::Result<()> {
    let heap = rt.alloc();
    let lines = read_lines(&rt)?;
    let Some(store) = told(&rt, heap, lines.as_slice())? else {
        return Ok(());
    };
    let view = store.view();
    match Document::examine(&view) {
        Err(fault) => println!(rt; "the store is damaged: {fault}"),
        Ok(document) => {
            // an examined document has 256 lists at most
            let lists = u32::try_from(view.lists.len()).unwrap_or(0);
            let desk = Desk::new(&rt, heap, &document, lists);
            answer(&rt, desk, lines.as_slice())
        }
    }
}
