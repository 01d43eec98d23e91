// What a reader does.
ghost use Rattle.std.specs.Prelude.{◌≡◌, ℕ, ◌+◌, ◌<◌, true, List, ◌∷◌, length, drop, slice_index, Decides};
ghost use Rattle.std.specs.Char.{is_ascii_digit};
ghost use Rattle.sheets.specs.Ahead.{ahead_in};
ghost use Rattle.sheets.specs.Cutting.{line_end, Digits, PartAt, StandsAt, Cut};

use crate::piece::{Ahead, Piece, Place};
use crate::reader::Reader;
use marks::{Reason, Refusal};

impl<'a> Reader<'a> {
    /// A reader that stands at the start of the text.
    pub fn new(text: &'a [u8]) -> Reader<'a>
        ensures text { result.text.now ≡ text.entry.now }
        ensures start { result.position ≡ 0 }
    {
        Reader {
            text,
            position: 0,
            line: 1,
            column: 1,
        }
    }

    /// The place of the next byte, or past the end.
    pub fn place(&self) -> Place
        ensures { StandsAt self.now.text.now self.now.position result }
    {
        Place {
            line: self.line,
            column: self.column,
        }
    }

    // Passes one byte of a line.
    fn pass_byte(&mut self)
        requires inside { self.old.position < length self.old.text.now }
        requires in_line { slice_index self.old.text.now self.old.position ≡ line_end → ⊥ }
        ensures text { self.new.text.now ≡ self.old.text.now }
        ensures position { self.new.position ≡ self.old.position + 1 }
    {
        self.position += 1;
        self.column += 1;
    }

    // Passes a line end.
    fn pass_line_end(&mut self)
        requires inside { self.old.position < length self.old.text.now }
        requires at_end { slice_index self.old.text.now self.old.position ≡ line_end }
        ensures text { self.new.text.now ≡ self.old.text.now }
        ensures position { self.new.position ≡ self.old.position + 1 }
    {
        self.position += 1;
        self.line += 1;
        self.column = 1;
    }

    // Passes the digits that follow, and lends them.
    fn digits(&mut self) -> &'a [u8]
        requires inside { self.old.position < length self.old.text.now }
        requires at_digit { is_ascii_digit (slice_index self.old.text.now self.old.position) ≡ true }
        ensures text { self.new.text.now ≡ self.old.text.now }
        ensures part { PartAt self.old.text.now self.old.position self.new.position (Digits result.now) }
    {
        let rest = &self.text[self.position..];
        let count = rest
            .iter()
            .position(|byte| !byte.is_ascii_digit())
            .unwrap_or(rest.len());
        self.position += count;
        self.column += count as u64;
        &rest[..count]
    }

    /// The next piece, which is then passed; none at the end of the text.
    /// Refused: BAD BYTE at a byte that no sheet has, which is not passed.
    pub fn next(&mut self) -> Result<Option<Piece<'a>>, Refusal>
        ensures text { self.new.text.now ≡ self.old.text.now }
        ensures cut { Cut self.old.text.now self.old.position self.new.position result }
    {
        if self.position >= self.text.len() {
            return Ok(None);
        }
        let place = self.place();
        match self.text[self.position] as char {
            '0'..='9' => {
                let digits = self.digits();
                Ok(Some(Piece::Number { digits, place }))
            }
            ' ' => {
                self.pass_byte();
                Ok(Some(Piece::Blank(place)))
            }
            '\n' => {
                self.pass_line_end();
                Ok(Some(Piece::LineEnd(place)))
            }
            _ => Err(place.refusal(Reason::BadByte)),
        }
    }

    // What comes next.
    pub(crate) fn ahead(&self) -> Ahead
        ensures { result ≡ ahead_in (drop self.now.position self.now.text.now) }
    {
        if self.position >= self.text.len() {
            return Ahead::End;
        }
        match self.text[self.position] as char {
            '\n' => Ahead::LineEnd,
            _ => Ahead::More,
        }
    }

    /// Whether a line end comes next.
    pub fn is_before_line_end(&self) -> bool
        ensures { Decides result ((rest : List ℕ) × (drop self.now.position self.now.text.now ≡ line_end ∷ rest)) }
    {
        self.ahead().is_line_end()
    }
}
