// For comparison with another checker: standard input is frames, each a sheet. For each sheet it writes six frames: the old
// answer, the house answer, the old entry states, the house entry states, the sealed house answer, empty where it is a refusal,
// and the sheet written back, empty where it is refused.

#![tactic(auto)]

ghost use Rattle.std.specs.Prelude.{◌≤◌, length};

use layout::{MAX_SHEET, QUEUE_SIZE, WORDS_SIZE};
use paper::{Answer, Rule};
use states::Part;
use std::io;
use std::io::{Read, Write};

// One part of a sheet's texts under both rules.
fn write_part<W: Write>(
    output: &mut W,
    part: Part,
    sheet: &[u8],
    text: &mut [u8],
    words: &mut [u16; WORDS_SIZE],
    queue: &mut [u8; QUEUE_SIZE],
) -> io::Result<()> {
    let old = states::text_of(part, Rule::Old, sheet, text, words, queue);
    frames::write(output, &text[..old])?;
    let house = states::text_of(part, Rule::House, sheet, text, words, queue);
    frames::write(output, &text[..house])
}

// The sealed house report: its length, 0 where the sheet is refused.
fn sealed_length(sheet: &[u8], text: &mut [u8], words: &mut [u16], queue: &mut [u8]) -> usize
    ensures { result ≤ length text.new }
{
    let said = sealed::check_sealed(Rule::House, sheet, text, words, queue);
    match said {
        Answer::Accepted(length) | Answer::Faulty(length) => length,
        Answer::Refused(_) => 0,
    }
}

// The sealed house report as a frame.
fn write_sealed<W: Write>(
    output: &mut W,
    sheet: &[u8],
    text: &mut [u8],
    words: &mut [u16; WORDS_SIZE],
    queue: &mut [u8; QUEUE_SIZE],
) -> io::Result<()> {
    let length = sealed_length(sheet, text, words, queue);
    frames::write(output, &text[..length])
}

// The sheet written back: its length, 0 where the sheet is refused.
fn back_length(sheet: &[u8], text: &mut [u8], words: &mut [u16]) -> usize
    ensures { result ≤ length text.new }
{
    writer::write_back(sheet, words, text).unwrap_or(0)
}

// The sheet written back as a frame.
fn write_back<W: Write>(
    output: &mut W,
    sheet: &[u8],
    text: &mut [u8],
    words: &mut [u16; WORDS_SIZE],
) -> io::Result<()> {
    let length = back_length(sheet, text, words);
    frames::write(output, &text[..length])
}

// The six frames of one sheet.
fn write_frames<W: Write>(
    output: &mut W,
    sheet: &[u8],
    text: &mut [u8],
    words: &mut [u16; WORDS_SIZE],
    queue: &mut [u8; QUEUE_SIZE],
) -> io::Result<()> {
    write_part(output, Part::Answer, sheet, text, words, queue)?;
    write_part(output, Part::States, sheet, text, words, queue)?;
    write_sealed(output, sheet, text, words, queue)?;
    write_back(output, sheet, text, words)
}

// Every sheet, to the end of the input.
fn answer_all<R: Read, W: Write>(input: &mut R, output: &mut W) -> io::Result<()> {
    let mut sheet = [0u8; 70000];
    // Room for a sheet, and so for each text of it.
    let mut text = [0u8; MAX_SHEET];
    let mut words = [0u16; WORDS_SIZE];
    let mut queue = [0u8; QUEUE_SIZE];
    frames::each(input, output, &mut sheet, |output, sheet| {
        write_frames(output, sheet, &mut text, &mut words, &mut queue)
    })
}

fn main(rt: HostRuntime) {
    if let Err(error) = answer_all(&mut rt.stdin(), &mut rt.stdout()) {
        let place = frames::place(error.kind());
        let _ = eprintln!(rt; "stream: {place}{error}");
    }
}
