// A limit of one's own, and limits at their edges, run as tests.
#![tactic(auto)]

#[cfg(test)]
mod house_limits;
pub mod within;
