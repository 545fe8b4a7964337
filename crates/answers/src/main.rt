// The program that the command runs: standard input is frames, each a request, which is the letter of a rule (`o` old, `h` house; `O`,
// `H` for a sealed report) and a sheet behind it. Each is answered by one frame: the report under that rule, or `X number line field`.

#![tactic(auto)]

ghost use Rattle.std.specs.Prelude.{◌≡◌};
ghost use Rattle.checker.specs.Checked.{lent};
ghost use Rattle.answers.specs.Request.{rule_asked, Replied};

use frames::Malformed;
use layout::{QUEUE_SIZE, SEALED_SIZE, WORDS_SIZE};
use paper::Rule;
use std::io;
use std::io::{Read, Write};

// The rule that a letter asks for, with or without a seal.
#[derive(Clone, Copy)]
enum Asked {
    For(Rule),
    Sealed(Rule),
}

// What a letter asks for, if it is the letter of a rule.
#[tactic(auto, unfolding(crate::specs::Request::rule_asked))]
fn rule_asked(letter: u8) -> Option<Asked>
    ensures { result ≡ rule_asked letter }
{
    match letter {
        b'h' => Some(Asked::For(Rule::House)),
        b'o' => Some(Asked::For(Rule::Old)),
        b'H' => Some(Asked::Sealed(Rule::House)),
        b'O' => Some(Asked::Sealed(Rule::Old)),
        _ => None,
    }
}

// The answer to a request, at the start of the report: its length, if the request asks for a rule.
fn reply_to(request: &[u8], report: &mut [u8], words: &mut [u16], queue: &mut [u8]) -> Option<usize>
    ensures { Replied request.now (lent report.old words.old queue.old) (lent report.new words.new queue.new) result }
{
    let (&letter, sheet) = request.split_first()?;
    match rule_asked(letter)? {
        Asked::For(rule) => Some(checker::answer_text(rule, sheet, report, words, queue)),
        Asked::Sealed(rule) => Some(sealed::sealed_text(rule, sheet, report, words, queue)),
    }
}

// The frame that answers a request.
fn write_reply<W: Write>(
    output: &mut W,
    request: &[u8],
    report: &mut [u8],
    words: &mut [u16; WORDS_SIZE],
    queue: &mut [u8; QUEUE_SIZE],
) -> io::Result<()> {
    let length = reply_to(request, report, words, queue).ok_or(Malformed)?;
    frames::write(output, &report[..length])
}

// Every request, to the end of the input.
fn answer_all<R: Read, W: Write>(input: &mut R, output: &mut W) -> io::Result<()> {
    // A letter, and one byte more than the longest sheet, so that a longer one is seen to be too long.
    let mut request = [0u8; 65538];
    let mut report = [0u8; SEALED_SIZE];
    let mut words = [0u16; WORDS_SIZE];
    let mut queue = [0u8; QUEUE_SIZE];
    frames::each(input, output, &mut request, |output, request| {
        write_reply(output, request, &mut report, &mut words, &mut queue)
    })
}

fn main(rt: HostRuntime) {
    if let Err(error) = answer_all(&mut rt.stdin(), &mut rt.stdout()) {
        let place = frames::place(error.kind());
        let _ = eprintln!(rt; "answers: {place}{error}");
    }
}
