// Checks the two day sheets of a practice day, and prints what they hold or what is wrong with them.
#![tactic(auto)]

mod book_text;
mod fault_text;
mod list_text;

use anyhow::anyhow;
use book_text::check_book;
use files::input::contents;
use list_text::check_list;
use std::{env, fs};

fn check_both(rt: &HostRuntime, list: &[u8], book: &[u8]) -> anyhow::Result<()> {
    let list_holds = check_list(rt, list)?;
    let book_holds = check_book(rt, book)?;
    if list_holds && book_holds {
        Ok(())
    } else {
        Err(anyhow!("fault"))
    }
}

fn read(rt: &HostRuntime, path: &str) -> anyhow::Result<Vec<u8>> {
    contents(rt, "lint", path, fs::read(rt, path))
}

fn main(rt: HostRuntime) -> anyhow::Result<()> {
    let mut args = env::args(&rt)?;
    let _program = args.next();
    match (args.next(), args.next(), args.next()) {
        (None, _, _) => check_both(&rt, samples::LIST, samples::BOOK),
        (Some(list), Some(book), None) => {
            let list = read(&rt, list.as_str())?;
            let book = read(&rt, book.as_str())?;
            check_both(&rt, list.as_slice(), book.as_slice())
        }
        _ => {
            eprintln!(rt; "usage: lint [LIST BOOK]")?;
            Err(anyhow!("usage"))
        }
    }
}
