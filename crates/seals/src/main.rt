// Verifies seals in bulk: standard input is frames, each a text; each is answered by one frame, what `regseal` writes of it.

#![tactic(auto)]

use paper::Seal;
use std::io;
use std::io::{Read, Write};

const LONGEST_TEXT: usize = 99999;

// The frame that answers a text.
fn write_answer<W: Write>(output: &mut W, text: &[u8]) -> io::Result<()> {
    match seal::verify(text) {
        Seal::Good => frames::write(output, b"good\n"),
        Seal::Wrong => frames::write(output, b"wrong\n"),
        Seal::None => frames::write(output, b"none\n"),
    }
}

// Every text, to the end of the input.
fn verify_all<R: Read, W: Write>(input: &mut R, output: &mut W) -> io::Result<()> {
    let mut text = [0u8; LONGEST_TEXT];
    frames::each(
        input,
        output,
        &mut text,
        |output, text| write_answer(output, text),
    )
}

fn main(rt: HostRuntime) {
    if let Err(error) = verify_all(&mut rt.stdin(), &mut rt.stdout()) {
        let place = frames::place(error.kind());
        let _ = eprintln!(rt; "seals: {place}{error}");
    }
}
