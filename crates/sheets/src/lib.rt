// Sheets: charge tables as text.
#![tactic(auto)]

mod digits;
mod line;
pub mod order;
pub mod piece;
pub mod reader;
pub mod reading;
pub mod writing;

pub use order::{Order, read_order};
pub use piece::{Piece, Place};
pub use reader::Reader;
pub use reading::read_sheet;
pub use writing::write_sheet;

/// A sheet has no more bytes than this.
pub const MOST_BYTES: usize = 1_048_576;
