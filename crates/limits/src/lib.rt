// House limits on which sets are listed.
#![tactic(auto)]

pub mod bars;
pub mod both;
pub mod limit;
pub mod size;
pub mod weight;

pub use bars::{Bars, Pair};
pub use both::Both;
pub use limit::Limit;
pub use size::Size;
pub use weight::{Weight, Weights};
