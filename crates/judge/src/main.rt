// Judges each frame of a recording by the sheets of a practice day, and prints the answers.
#![tactic(auto)]

mod answer_text;
mod fault_text;
mod open_day;
mod recording;
mod start_time;

use answer_text::print_answer;
use anyhow::anyhow;
use books::code_book::CodeBook;
use books::sheet_book::SheetBook;
use books::standard_book::StandardBook;
use fault_text::print_fault;
use files::input::{contents, cut_short};
use files::sheet::{BOOK_TABLE, LIST_TABLE, book_rows, list_rows};
use lists::market_list::MarketList;
use open_day::OpenDay;
use start_time::start_time;
use std::{env, fs};
use wire::frames::Frames;

fn print_answers<B: CodeBook>(
    rt: &HostRuntime,
    day: &OpenDay<B>,
    recording: &[u8],
) -> anyhow::Result<()> {
    for frame in Frames::of(recording) {
        match frame {
            Ok(frame) => print_answer(rt, &day.answer_to(frame))?,
            Err(short) => return cut_short(rt, "judge", short),
        }
    }
    Ok(())
}

// `lint` tells of a fault at length, and what is made of the rows differs from sheet to sheet; the rest is `list_rows`.
fn market_of(rt: &HostRuntime, sheet: &[u8]) -> anyhow::Result<MarketList> {
    let mut table = LIST_TABLE;
    match list_rows(sheet, &mut table) {
        Ok(rows) => Ok(MarketList::of_rows(rows)),
        Err(fault) => {
            print_fault(rt, "list", fault)?;
            Err(anyhow!("fault"))
        }
    }
}

fn judge_by_sheet(
    rt: &HostRuntime,
    market: &MarketList,
    start: u64,
    sheet: &[u8],
    recording: &[u8],
) -> anyhow::Result<()> {
    let mut table = BOOK_TABLE;
    match book_rows(sheet, &mut table) {
        Ok(rows) => {
            let day = OpenDay {
                market,
                start,
                book: &SheetBook::of_rows(rows),
            };
            print_answers(rt, &day, recording)
        }
        Err(fault) => {
            print_fault(rt, "book", fault)?;
            Err(anyhow!("fault"))
        }
    }
}

fn judge_samples(rt: &HostRuntime) -> anyhow::Result<()> {
    let market = market_of(rt, samples::LIST)?;
    judge_by_sheet(
        rt,
        &market,
        recording::START,
        samples::BOOK,
        recording::RECORDING,
    )
}

// Names the program, as `lint` has its own: a shared one would take the name, and be what `contents` is.
fn read(rt: &HostRuntime, path: &str) -> anyhow::Result<Vec<u8>> {
    contents(rt, "judge", path, fs::read(rt, path))
}

// The book is a path, or the word `standard`.
fn judge_files(
    rt: &HostRuntime,
    list: &str,
    book: &str,
    start: u64,
    file: &str,
) -> anyhow::Result<()> {
    let list = read(rt, list)?;
    let market = market_of(rt, list.as_slice())?;
    if book == "standard" {
        let recording = read(rt, file)?;
        let day = OpenDay {
            market: &market,
            start,
            book: &StandardBook,
        };
        return print_answers(rt, &day, recording.as_slice());
    }
    let book = read(rt, book)?;
    let recording = read(rt, file)?;
    judge_by_sheet(rt, &market, start, book.as_slice(), recording.as_slice())
}

fn main(rt: HostRuntime) -> anyhow::Result<()> {
    let mut args = env::args(&rt)?;
    let _program = args.next();
    let Some(list) = args.next() else {
        return judge_samples(&rt);
    };
    if let (Some(book), Some(start), Some(file), None) = (
        args.next(),
        args.next(),
        args.next(),
        args.next(),
    ) {
        if let Some(start) = start_time(start.as_str()) {
            return judge_files(&rt, list.as_str(), book.as_str(), start, file.as_str());
        }
    }
    eprintln!(rt;
        "usage: judge [LIST BOOK START FILE]: two sheets, or `standard` for BOOK, a time in decimal, and a recording"
    )?;
    Err(anyhow!("usage"))
}
