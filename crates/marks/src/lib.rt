// What everything else speaks in: marks, charges, widths and supports; sets of marks; refusals.
#![tactic(auto)]

pub mod firsts;
pub mod numbers;
pub mod orders;
pub mod refusal;
pub mod sets;

pub use firsts::first_passing;
pub use numbers::charge::Charge;
pub use numbers::mark::Mark;
pub use numbers::support::Support;
pub use numbers::width::Width;
pub use numbers::{Kind, MARKS, MOST_CHARGES, MOST_MARKS, Number};
pub use orders::{StrictOrder, first_unordered};
pub use refusal::{Reason, Refusal};
pub use sets::MarkSet;
