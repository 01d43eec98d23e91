// Sheets and order lines at their edges, run as tests.
#![tactic(auto)]

#[cfg(test)]
mod faults;
#[cfg(test)]
mod most;
#[cfg(test)]
mod orders;
#[cfg(test)]
mod pieces;
#[cfg(test)]
mod room;
#[cfg(test)]
mod writing;
