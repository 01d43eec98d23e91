// A table of one's own and a pile of layers; numbers, sets, refusals, tables and layers at their edges, run as tests.
#![tactic(auto)]

#[cfg(test)]
mod columns;
#[cfg(test)]
mod layers;
pub mod ledger;
#[cfg(test)]
mod numbers;
#[cfg(test)]
mod packed;
pub mod piles;
#[cfg(test)]
mod refusals;
#[cfg(test)]
mod sets;
