// Runs a stored list of the oracle's answers.

#![tactic(auto)]

use std::io;
use stored::List;

fn main(rt: HostRuntime) -> io::Result<()> {
    stored::run(&mut rt.stdin(), &mut rt.stdout(), List::Answers)
}
