// Writes sheets back in bulk: standard input is frames, each a sheet; each is answered by one frame, what `regwrite` writes of it: the
// sheet's own bytes, or its refusal.

#![tactic(auto)]

ghost use Rattle.std.specs.Prelude.{◌≤◌, length};

use layout::{MAX_SHEET, QUEUE_SIZE, WORDS_SIZE};
use paper::{Rule, Unwritten};
use std::io;
use std::io::{Read, Write};

// The sheet written back, or `X number line field`: its length.
fn reply_to(sheet: &[u8], text: &mut [u8], words: &mut [u16], queue: &mut [u8]) -> usize
    ensures { result ≤ length text.new }
{
    match writer::write_back(sheet, words, text) {
        Ok(length) => length,
        Err(Unwritten::NoSheet) => checker::answer_text(Rule::House, sheet, text, words, queue),
        Err(Unwritten::NoRoom) => 0,
    }
}

// The frame that answers a sheet.
fn write_reply<W: Write>(
    output: &mut W,
    sheet: &[u8],
    text: &mut [u8],
    words: &mut [u16; WORDS_SIZE],
    queue: &mut [u8; QUEUE_SIZE],
) -> io::Result<()> {
    let length = reply_to(sheet, text, words, queue);
    frames::write(output, &text[..length])
}

// Every sheet, to the end of the input.
fn write_all<R: Read, W: Write>(input: &mut R, output: &mut W) -> io::Result<()> {
    let mut sheet = [0u8; 70000];
    let mut text = [0u8; MAX_SHEET];
    let mut words = [0u16; WORDS_SIZE];
    let mut queue = [0u8; QUEUE_SIZE];
    frames::each(input, output, &mut sheet, |output, sheet| {
        write_reply(output, sheet, &mut text, &mut words, &mut queue)
    })
}

fn main(rt: HostRuntime) {
    if let Err(error) = write_all(&mut rt.stdin(), &mut rt.stdout()) {
        let place = frames::place(error.kind());
        let _ = eprintln!(rt; "writes: {place}{error}");
    }
}
