// The pieces of a sheet, and what comes next in a text.
ghost use Rattle.std.specs.Prelude.{◌≡◌};
ghost use Rattle.sheets.specs.Ahead.{is_line_end, is_end_of_line};
ghost use Rattle.sheets.specs.Lines.{fault_at};

use marks::{Reason, Refusal};

/// A line and a column, both counted from 1.
#[derive(Clone, Copy, PartialEq, Eq, Debug)]
pub struct Place {
    pub line: u64,
    pub column: u64,
}

impl Place {
    // A refusal at this place.
    pub(crate) fn refusal(self, reason: Reason) -> Refusal
        ensures { result ≡ fault_at self reason }
    {
        Refusal::at_line(reason, self.line, self.column)
    }
}

/// A piece of a sheet, with the place of its first byte. A number lends its digits from the text.
#[derive(Clone, Copy, Debug)]
pub enum Piece<'a> {
    Number { digits: &'a [u8], place: Place },
    Blank(Place),
    LineEnd(Place),
}

// What comes next in a text: more of the line, a line end, or the end of the text.
#[derive(Clone, Copy, Debug)]
pub(crate) enum Ahead {
    More,
    LineEnd,
    End,
}

impl Ahead {
    // Whether it is a line end.
    pub(crate) fn is_line_end(self) -> bool
        ensures { result ≡ is_line_end self }
    {
        matches!(self, Ahead::LineEnd)
    }

    // Whether the line ends here, by a line end or by the end of the text.
    pub(crate) fn is_end_of_line(self) -> bool
        ensures { result ≡ is_end_of_line self }
    {
        !matches!(self, Ahead::More)
    }
}
