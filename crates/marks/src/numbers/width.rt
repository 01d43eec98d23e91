// Widths.
use crate::numbers::{Kind, MOST_MARKS, Number};

/// The kind of widths.
pub enum WidthKind {}

impl Kind for WidthKind {
    const NAME: &'static str = "Width";
}

/// A width: how many marks a table has, which are the marks 1 to the width.
pub type Width = Number<WidthKind, MOST_MARKS>;
