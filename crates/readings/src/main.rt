// Runs a stored list of sheets on the reader.

#![tactic(auto)]

use std::io;
use stored::List;

fn main(rt: HostRuntime) -> io::Result<()> {
    stored::run(&mut rt.stdin(), &mut rt.stdout(), List::Readings)
}
