// Standard input to standard output: the house report of the sheet, or `X number line field` for a refusal.

#![tactic(auto)]

ghost use Rattle.std.specs.Prelude.{◌≡◌, None, OnOk, ◌≤◌, ◌<◌, length, take};
ghost use Rattle.std.specs.Io.KnownBytes.{Consumes, IsAtEnd};
ghost use Rattle.regcheck.specs.Program.{AnswersInput};

use layout::{QUEUE_SIZE, REPORT_SIZE, WORDS_SIZE};
use paper::Rule;
use std::io::{Read, Write};
use std::{fmt, io};

// How much was read, and why a read failed, where one did. It is no `Result`, since what was taken is known of a failed read too.
#[derive(Clone, Copy)]
struct Input {
    pub count: usize,
    pub failure: Option<io::Error>,
}

// Why the sheet could not be read, or its answer not be written.
#[derive(Clone, Copy)]
enum Failure {
    Input(io::Error),
    Output(io::Error),
}

impl fmt::Display for Failure {
    fn fmt<W: fmt::Write>(&self, f: &mut fmt::Formatter<W>) -> fmt::Result {
        match self {
            Failure::Input(error) => write!(f, "standard input: {error}"),
            Failure::Output(error) => write!(f, "standard output: {error}"),
        }
    }
}

// Reads until the room is full or the input ends.
fn read_sheet<R: Read>(input: &mut R, room: &mut [u8]) -> Input
    ensures within { result.count ≤ length room.new }
    ensures taken { Consumes (R.remaining input.old) (R.remaining input.new) (take result.count room.new) }
    ensures whole { result.failure ≡ None → result.count < length room.new → IsAtEnd (R.remaining input.new) }
{
    let mut count = 0;
    while count < room.len() {
        match input.read(&mut room[count..]) {
            Ok(0) => {
                return Input {
                    count,
                    failure: None,
                };
            }
            Ok(n) => count += n,
            Err(error) => {
                return Input {
                    count,
                    failure: Some(error),
                };
            }
        }
    }
    Input {
        count,
        failure: None,
    }
}

// Writes what is said of the sheet that the input is.
fn answer<R: Read, W: Write>(input: &mut R, output: &mut W) -> Result<(), Failure>
    ensures { OnOk result (AnswersInput (R.remaining input.old) (W.contents output.old) (W.contents output.new)) }
{
    // One byte more than the longest sheet, so that a longer one is seen to be too long.
    let mut sheet = [0u8; 65537];
    let mut report = [0u8; REPORT_SIZE];
    let mut words = [0u16; WORDS_SIZE];
    let mut queue = [0u8; QUEUE_SIZE];
    let read = read_sheet(input, &mut sheet);
    if let Some(error) = read.failure {
        return Err(Failure::Input(error));
    }
    let end = read.count;
    let length = checker::answer_text(
        Rule::House,
        &sheet[..end],
        &mut report,
        &mut words,
        &mut queue,
    );
    output.write_all(&report[..length]).map_err(Failure::Output)
}

fn main(rt: HostRuntime) {
    if let Err(failure) = answer(&mut rt.stdin(), &mut rt.stdout()) {
        let _ = eprintln!(rt; "regcheck: {failure}");
    }
}
