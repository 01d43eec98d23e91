// The worked answers: what is listed of a small sample, and what its nodes are narrowed to.
#![tactic(auto)]

pub mod charges;
pub mod lists;
pub mod nodes;

pub use charges::sample;
pub use lists::{Listing, list};
pub use nodes::{Narrowing, narrow_sample};
