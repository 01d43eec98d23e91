// Reading sheets.
ghost use Rattle.std.specs.Prelude.{◌≡◌, cond, length, None, OnErr};
ghost use Rattle.marks.specs.Refusals.{Answers};
ghost use Rattle.marks.specs.Sets.{no_marks};
ghost use Rattle.sheets.specs.Accepting.{AcceptsOnlySheets, AcceptsSheets, IsOneSheet};
ghost use Rattle.sheets.specs.Cutting.{part_of_piece};
ghost use Rattle.sheets.specs.Lines.{fault_at, is_nothing};
ghost use Rattle.sheets.specs.Knowing.{HasPacked, HasEnded, IsSound, Takes};
ghost use Rattle.sheets.specs.Reading.{charge_fault, text_reading, reading, packed_into};
ghost use Rattle.sheets.specs.declared.line.Left.{Left};

use crate::MOST_BYTES;
use crate::line::Line;
use crate::piece::{Ahead, Piece, Place};
use crate::reader::Reader;
use marks::{MOST_CHARGES, Reason, Refusal, Width};
use tables::ROW_BYTES;

// A sheet while it is read: its line that is not yet ended, and how many charges are packed.
#[derive(Drop, Debug)]
pub(crate) struct Sheet {
    width: Width,
    line: Line,
    count: usize,
}

impl Sheet {
    // A sheet of which nothing is read.
    fn new(width: Width) -> Sheet
        ensures width { result.width ≡ width }
        ensures row { result.line.row.bits ≡ no_marks }
        ensures left { result.line.left ≡ Left.Nothing }
        ensures count { result.count ≡ 0 }
    {
        Sheet {
            width,
            line: Line::new(),
            count: 0,
        }
    }

    // Takes the next piece, and packs the line that it ends, unless that is empty.
    fn take(&mut self, piece: Piece<'_>, ahead: Ahead, memory: &mut [u8]) -> Result<(), Refusal>
        requires { IsSound (part_of_piece piece) }
        ensures taken { Takes piece.entry ahead self.old self.new memory.old memory.new result }
        ensures kept { OnErr result (memory.new ≡ memory.old) }
        ensures width { self.new.width ≡ self.old.width }
    {
        match piece {
            Piece::Number { digits, place } => self.line.add(digits, place, self.width, ahead),
            Piece::Blank(place) => self.line.part(place, ahead),
            Piece::LineEnd(place) => self.end_line(place, memory),
        }
    }

    // Ends the line at a place: an empty line is passed, and any other is packed.
    fn end_line(&mut self, place: Place, memory: &mut [u8]) -> Result<(), Refusal>
        ensures answer { Answers (cond (is_nothing self.old.line.left) None (charge_fault (fault_at place) (length memory.old) self.old.count)) (λ _. HasEnded self.old self.new memory.old memory.new) result }
        ensures kept { OnErr result (memory.new ≡ memory.old) }
        ensures width { self.new.width ≡ self.old.width }
    {
        if !self.line.is_begun() {
            return Ok(());
        }
        self.pack(place, memory)
    }

    // Packs the line, which ends at a place, and begins the next.
    fn pack(&mut self, place: Place, memory: &mut [u8]) -> Result<(), Refusal>
        ensures answer { Answers (charge_fault (fault_at place) (length memory.old) self.old.count) (λ _. HasPacked self.old self.new memory.old memory.new) result }
        ensures kept { OnErr result (memory.new ≡ memory.old) }
        ensures width { self.new.width ≡ self.old.width }
    {
        if self.count >= MOST_CHARGES as usize {
            return Err(place.refusal(Reason::TooMany));
        }
        // By offset: of memory that is lent by `get_mut`, or as chunks, no proof learns what it then holds.
        let start = ROW_BYTES * self.count;
        let end = start + ROW_BYTES;
        if memory.len() < end {
            return Err(place.refusal(Reason::NoPlace));
        }
        memory[start..end].copy_from_slice(&self.line.row.bits().to_le_bytes());
        self.count += 1;
        self.line = Line::new();
        Ok(())
    }
}

// Reads a text of any length.
fn read_text(text: &[u8], width: Width, memory: &mut [u8]) -> Result<usize, Refusal>
    ensures answer { let read = text_reading width.number (length memory.old) text.now in Answers read.refusal (λ count. count ≡ length read.rows) result }
    ensures memory { memory.new ≡ packed_into (text_reading width.number (length memory.old) text.now).rows memory.old }
{
    let mut reader = Reader::new(text);
    let mut sheet = Sheet::new(width);
    while let Some(piece) = reader.next()? {
        sheet.take(piece, reader.ahead(), memory)?;
    }
    if sheet.line.is_begun() {
        return Err(reader.place().refusal(Reason::NoLineEnd));
    }
    Ok(sheet.count)
}

/// Packs each charge of a sheet into four bytes of memory, and answers how many it packed.
/// Each line but an empty one is a charge; a charge without marks is the line `0`.
/// Refused: LONG above 1,048,576 bytes; then the first fault from the left to the right, with its line and its column.
/// The charges of the lines before a fault stay packed; every other byte of memory is as it was.
pub fn read_sheet(text: &[u8], width: Width, memory: &mut [u8]) -> Result<usize, Refusal>
    ensures answer { let read = reading width.number (length memory.old) text.now in Answers read.refusal (λ count. count ≡ length read.rows) result }
    ensures memory { memory.new ≡ packed_into (reading width.number (length memory.old) text.now).rows memory.old }
    ensures sheets { AcceptsSheets width.number text.now memory.old memory.new result }
    ensures only_sheets { AcceptsOnlySheets width.number text.now memory.old memory.new result }
    ensures one_sheet { IsOneSheet width.number (length memory.old) text.now }
{
    if text.len() > MOST_BYTES {
        return Err(Refusal::unplaced(Reason::Long));
    }
    read_text(text, width, memory)
}
