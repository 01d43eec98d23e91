// Found records and printed lines at their edges, run as tests.
#![tactic(auto)]

#[cfg(test)]
mod printed;
#[cfg(test)]
mod records;
