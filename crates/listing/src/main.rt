// Reads an order line and a sheet from standard input, and prints the list that they ask for, or the line of their fault.
#![tactic(auto)]

use listed::{INPUT_LIMIT, answer};
use std::io::{self, Read, Write};

fn main(rt: HostRuntime) -> io::Result<()> {
    let mut input = Vec::new(rt.alloc());
    rt.reader()
        .take(INPUT_LIMIT as u64)
        .read_to_end(&mut input)?;
    io::writer(&rt).write_all(&answer(rt.alloc(), &input)?)
}
