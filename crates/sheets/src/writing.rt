// Writing packed bytes as a sheet.
ghost use Rattle.std.specs.Prelude.{◌≡◌, ◌+◌, ◌≤◌, ◌++◌, length, take, drop, decimal, IfOk};
ghost use Rattle.marks.specs.Memory.{put_in_front};
ghost use Rattle.marks.specs.Refusals.{Kept};
ghost use Rattle.sheets.specs.Rendering.{row_words, row_text, render};
ghost use Rattle.sheets.specs.Written.{Writes, IsSheetOf};

use crate::MOST_BYTES;
use arrayvec::ArrayString;
use itoa::Buffer;
use marks::{Charge, Mark, MarkSet, Reason, Refusal, Width};
use tables::{Packed, Table};

// No line is longer: 32 marks of at most two digits, each with the blank or the line end after it.
const LONGEST: usize = 96;

// A line while it is written.
type Text = ArrayString<LONGEST>;

// Adds a mark in decimal digits.
fn add_mark(text: &mut Text, mark: Mark)
    requires { length text.old.bytes + 2 ≤ LONGEST }
    ensures { text.new.bytes ≡ text.old.bytes ++ decimal mark.number }
{
    text.push_str(Buffer::new().format(mark.get()));
}

// What the line of a row says: its marks, one blank between neighbours, or 0 if it has none.
fn text_of_marks(row: MarkSet) -> Text
    ensures value { result.bytes ≡ row_words row.bits }
    ensures room { length result.bytes + 1 ≤ LONGEST }
{
    let mut text = Text::new();
    let mut marks = row.marks();
    let Some(first) = marks.next() else {
        text.push('0');
        return text;
    };
    add_mark(&mut text, first);
    for mark in marks {
        text.push(' ');
        add_mark(&mut text, mark);
    }
    text
}

// The line of a row, with its line end.
fn line_of(row: MarkSet) -> Text
    ensures value { result.bytes ≡ row_text row.bits }
    ensures size { length result.bytes ≤ LONGEST }
{
    let mut line = text_of_marks(row);
    line.push('\n');
    line
}

// How many bytes the sheet of a table without empty lines has.
fn sheet_size<T: Table>(table: &T) -> usize
    ensures { result ≡ length (render (T.Table.meaning table.now).rows) }
{
    Charge::up_to(table.count())
        .map(|charge| line_of(table.row(charge)).len())
        .sum()
}

// Writes a line into a text from a place on, and answers the place after it.
fn put(line: &Text, text: &mut [u8], from: usize) -> usize
    requires { from + length line.now.bytes ≤ length text.old }
    ensures end { result ≡ from + length line.now.bytes }
    ensures text { text.new ≡ take from text.old ++ (line.now.bytes ++ drop (from + length line.now.bytes) text.old) }
{
    let end = from + line.len();
    text[from..end].copy_from_slice(line.as_bytes());
    end
}

// Writes the sheet of a table without empty lines into the front of a text.
fn write_lines<T: Table>(table: &T, text: &mut [u8])
    requires { length (render (T.Table.meaning table.now).rows) ≤ length text.old }
    ensures { text.new ≡ put_in_front (render (T.Table.meaning table.now).rows) text.old }
{
    let mut end = 0;
    for charge in Charge::up_to(table.count()) {
        end = put(&line_of(table.row(charge)), text, end);
    }
}

/// Writes packed bytes as a sheet without empty lines into the front of a text, and answers how many bytes it has. Bytes past it are as they were.
/// Refused: as the packed table of this width is, RAGGED, TOO MANY or STRAY; LONG if the sheet would have more than 1,048,576 bytes; NO PLACE if it does not fit the text.
/// A refusal writes nothing.
#[tactic(auto, unfolding(crate::specs::Written::write_refusal))]
pub fn write_sheet(bytes: &[u8], width: Width, text: &mut [u8]) -> Result<usize, Refusal>
    ensures answer { Writes bytes.now width.number text.old text.new result }
    ensures kept { Kept text.old text.new result }
    ensures sheet { IfOk result (λ size. IsSheetOf width.number bytes.now (take size text.new)) }
{
    // The sheet is measured before a byte of it is written.
    let table = Packed::new(bytes, width)?;
    let size = sheet_size(&table);
    if size > MOST_BYTES {
        return Err(Refusal::unplaced(Reason::Long));
    }
    if size > text.len() {
        return Err(Refusal::unplaced(Reason::NoPlace));
    }
    write_lines(&table, text);
    Ok(size)
}
