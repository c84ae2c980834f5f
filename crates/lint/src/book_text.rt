// What a book sheet holds.
use crate::fault_text::print_fault;
use books::code_book::CodeBook;
use books::sheet_book::SheetBook;
use codes::book_row::BookRow;
use files::sheet::{BOOK_TABLE, book_rows};
use sheets::bucket::Bucket;
use show::quoted::Quoted;
use std::fmt::Display;

// Prints the bytes that a book accepts.
fn print_set<Name: Display + Drop, Test: Fn(u8) -> bool + Drop>(
    rt: &HostRuntime,
    name: Name,
    accepts: Test,
) -> anyhow::Result<()>
    requires { Test.IsAlwaysCallable accepts }
{
    let bytes: Vec<u8> = (0..=u8::MAX)
        .filter(|byte| accepts(*byte))
        .collect(rt.alloc())?;
    let bytes = Quoted(bytes.as_slice());
    println!(rt; "  {name} {bytes}")?;
    Ok(())
}

fn print_sets<B: CodeBook>(rt: &HostRuntime, book: &B) -> anyhow::Result<()> {
    print_set(rt, "flags", |byte| book.accepts_flag(byte))?;
    print_set(rt, "sides", |byte| book.accepts_side(byte))?;
    for bucket in Bucket::ALL {
        let digit = char::from(u8::from(bucket));
        print_set(rt, format_args!("bucket {digit}"), |byte| {
            book.accepts_value(bucket, byte)
        })?;
    }
    Ok(())
}

fn print_row(rt: &HostRuntime, row: &BookRow) -> anyhow::Result<()> {
    match row {
        BookRow::Flag(flag) => {
            let flag = Quoted(&[*flag]);
            println!(rt; "  flag {flag}")?;
        }
        BookRow::Side(side) => {
            let side = Quoted(&[*side]);
            println!(rt; "  side {side}")?;
        }
        BookRow::Value(bucket, value) => {
            let value = Quoted(&[*value]);
            let digit = char::from(u8::from(*bucket));
            println!(rt; "  value {value} in bucket {digit}")?;
        }
        BookRow::Barred(flag, value) => {
            let flag = Quoted(&[*flag]);
            let value = Quoted(&[*value]);
            println!(rt; "  flag {flag} barred with value {value}")?;
        }
    }
    Ok(())
}

// Prints a book sheet or its first fault, and says whether it is faultless.
pub(crate) fn check_book(rt: &HostRuntime, text: &[u8]) -> anyhow::Result<bool> {
    let mut table = BOOK_TABLE;
    match book_rows(text, &mut table) {
        Ok(rows) => {
            println!(rt; "book: rows {}", rows.len())?;
            for row in rows {
                print_row(rt, row)?;
            }
            println!(rt; "sets of the book:")?;
            print_sets(rt, &SheetBook::of_rows(rows))?;
            Ok(true)
        }
        Err(fault) => {
            print_fault(rt, "book", text, fault)?;
            Ok(false)
        }
    }
}
