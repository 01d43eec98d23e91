// Nodes that are narrowed, finders that are worked, and whole inputs, run as tests.
#![tactic(auto)]

#[cfg(test)]
mod answers;
#[cfg(test)]
mod asked;
#[cfg(test)]
mod narrowing;
#[cfg(test)]
mod runs;
