// What is found: records and printed lines.
#![tactic(auto)]

pub mod lines;
pub mod reading;
pub mod record;

pub use lines::{end_line, fault_line, line};
pub use reading::read_back;
pub use record::{RECORD_BYTES, Record, RecordBytes};
