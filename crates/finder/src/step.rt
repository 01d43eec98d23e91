// What the next call answers.

// No Option: the end has two numbers to tell.
/// A set was found and its record written; or the list is out, with the ordinal and the opened number of the last record again, or 0 and 1 for an empty list.
#[derive(Clone, Copy, PartialEq, Eq, Debug)]
pub enum Step {
    Found,
    End { ordinal: u64, opened: u64 },
}
