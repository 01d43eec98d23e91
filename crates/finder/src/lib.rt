// Finding closed sets: the tally of a set, narrowing a node, and the finder that hands out the list.
#![tactic(auto)]

pub mod finder;
pub mod narrowing;
pub mod step;
pub mod tally;
pub mod transcripts;
pub mod whole;

pub use finder::Finder;
pub use narrowing::{Node, narrow};
pub use step::Step;
pub use tally::Tally;
pub use transcripts::{Move, Told, transcript};
pub use whole::{WholeList, whole_list};
