// What is printed for what is read: an order line and a sheet are read, and the list that they ask for is set out in lines.
#![tactic(auto)]

pub mod answering;
mod asking;
mod printing;

pub use answering::answer;
pub use asking::INPUT_LIMIT;
