// Tables of charges: what a table means, and what stands for one.
#![tactic(auto)]

pub mod columns;
pub mod holding;
pub mod layers;
pub mod packed;
pub mod table;

pub use columns::turning::turn;
pub use columns::{Columns, WORD_BITS};
pub use holding::Holding;
pub use layers::choice::Choice;
pub use layers::reverse::Reverse;
pub use layers::selection::Selection;
pub use layers::window::Window;
pub use packed::{Packed, ROW_BYTES};
pub use table::Table;
