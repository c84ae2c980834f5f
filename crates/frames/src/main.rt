// Reads a recording of frames and prints what each one holds.
#![tactic(auto)]

mod board;
mod recording;
mod report_text;

use anyhow::anyhow;
use board::Board;
use files::input::{contents, cut_short};
use recording::RECORDING;
use report_text::print_report;
use std::{env, fs};
use wire::frames::Frames;
use wire::header::HeaderRow;
use wire::trade_report::TradeReport;

// A function: `HeaderRow` is of a crate below, and a type of this one round it would print these same words.
fn rule(row: HeaderRow) -> &'static str {
    match row {
        HeaderRow::Version =>
            "the version, its first byte, is not the character 1, or it has fewer than 3 bytes",
        HeaderRow::Kind => "its second and third bytes are not TE",
        HeaderRow::Length => "it is not 72 bytes long",
    }
}

// Prints one frame, enters it on the board if it is a trade report, and says whether it is.
fn print_frame(
    rt: &HostRuntime,
    number: u64,
    frame: &[u8],
    board: &mut Board,
) -> anyhow::Result<bool> {
    let size = frame.len();
    match TradeReport::read(frame) {
        Ok(report) => {
            println!(rt; "frame {number}, {size} bytes: regular trade report")?;
            print_report(rt, &report, frame)?;
            board.note(&report)?;
            Ok(true)
        }
        Err(row) => {
            let n = u16::from(row);
            let why = rule(row);
            println!(rt; "frame {number}, {size} bytes: no trade report, row {n} fails: {why}")?;
            Ok(false)
        }
    }
}

fn print_recording(rt: &HostRuntime, bytes: &[u8]) -> anyhow::Result<()> {
    let mut board = Board::new(rt.alloc());
    // both counts are told after the last frame, and the first beside each
    let mut frames: u64 = 0;
    let mut reports: u64 = 0;
    for frame in Frames::of(bytes) {
        match frame {
            Ok(frame) => {
                frames = frames.saturating_add(1);
                if print_frame(rt, frames, frame, &mut board)? {
                    reports = reports.saturating_add(1);
                }
            }
            Err(short) => return cut_short(rt, "frames", short),
        }
    }
    println!(rt; "{frames} frames, {reports} trade reports")?;
    board.print(rt)
}

fn main(rt: HostRuntime) -> anyhow::Result<()> {
    let mut args = env::args(&rt)?;
    let _program = args.next();
    let Some(path) = args.next() else {
        return print_recording(&rt, RECORDING);
    };
    if args.next().is_some() {
        eprintln!(rt; "usage: frames [FILE]")?;
        return Err(anyhow!("usage"));
    }
    let read = fs::read(&rt, path.as_str());
    let recording = contents(&rt, "frames", path.as_str(), read)?;
    print_recording(&rt, recording.as_slice())
}
