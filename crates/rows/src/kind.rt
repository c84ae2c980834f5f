// Kinds of frames, and the one walk over the rows of any kind.
ghost use Rattle.std.specs.Prelude.{◌≡◌, ℕ, ◌≤◌, List, ◌++◌, length, map, None};
ghost use Rattle.books.specs.Sets.{Sets};
ghost use Rattle.wire.specs.Header.{asked_of, first_failing as first_in_header};
ghost use Rattle.rows.specs.Asked.{Asked, failing, first_failing};
ghost use Rattle.rows.specs.HeaderRows.{header_rows};
ghost use Rattle.rows.specs.Judged.{judgement};
ghost use Rattle.rows.specs.declared.context.Context.{Context};

use crate::context::Context;
use crate::header_rows::ask_header;
use books::code_book::CodeBook;
use verdicts::answer::Verdict;

// A kind brings its two letters, its length, its fields and its rows. The methods are for the walk, which asks the rows of a frame
// only where the frame reads as the kind. `read` gives the fields themselves and no `Result`, so each kind has the two arms of it.
// Frame, context and book stay three arguments: a struct of them would be taken apart in every row.
pub trait Kind {
    const LETTERS: [u8; 2];

    const LENGTH: usize;

    type Fields;

    type Row: Copy + 'static;

    ghost LETTERS: { List ℕ };

    ghost LENGTH: { ℕ };

    ghost fields: { List ℕ → Self.Fields };

    ghost order: { List Self.Row };

    ghost asked: { Sets → Context → List ℕ → Self.Row → Asked };

    fn read(frame: &[u8]) -> Self::Fields
        requires { first_in_header (asked_of LETTERS LENGTH frame.now) ≡ None }
        ensures { result ≡ fields frame.now };

    // The rows, from top to bottom.
    fn rows() -> &'static [Self::Row]
        ensures { result.now ≡ order };

    fn ask<B: CodeBook>(
        row: Self::Row,
        frame: &[u8],
        context: &Context,
        book: &B,
    ) -> Result<(), Verdict>
        requires { length frame.now ≡ LENGTH }
        ensures { result ≡ judgement (failing (asked (B.CodeBook.sets book.now) context.now frame.now row)) tt };

    // Every frame has the header's fields.
    ghost headed: { 21 ≤ LENGTH };
}

// Asks the rows that every kind has.
fn ask_shared<K: Kind>(frame: &[u8], context: &Context) -> Result<(), Verdict>
    ensures { result ≡ judgement (first_failing (header_rows K.LETTERS K.LENGTH context.now frame.now)) tt }
{
    ask_header(frame, K::LETTERS, K::LENGTH, context)
}

// Asks the rows of a kind itself, from top to bottom.
fn ask_own<K: Kind, B: CodeBook>(frame: &[u8], context: &Context, book: &B) -> Result<(), Verdict>
    requires { length frame.now ≡ K.LENGTH }
    ensures { result ≡ judgement (first_failing (map (K.asked (B.CodeBook.sets book.now) context.now frame.now) K.order)) tt }
{
    for row in K::rows() {
        K::ask(*row, frame, context, book)?;
    }
    Ok(())
}

// Judges a frame as one of a kind: its fields where every row holds, else what the first failing row says.
pub fn walk<K: Kind, B: CodeBook>(
    frame: &[u8],
    context: &Context,
    book: &B,
) -> Result<K::Fields, Verdict>
    ensures { result ≡ judgement (first_failing (header_rows K.LETTERS K.LENGTH context.now frame.now ++ map (K.asked (B.CodeBook.sets book.now) context.now frame.now) K.order)) (K.fields frame.now) }
{
    ask_shared::<K>(frame, context)?;
    ask_own::<K, B>(frame, context, book)?;
    Ok(K::read(frame))
}
