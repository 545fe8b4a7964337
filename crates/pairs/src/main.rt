// Compares reports in bulk: standard input is texts in frames, two reports to a pair; each pair is answered by one text, what `regcompare`
// writes of it. A text's frames have 99,999 bytes each but for the last, which has fewer.

#![tactic(auto)]

ghost use Rattle.std.specs.Prelude.{IfOk, IfSome, ◌≤◌, length};

use frames::Malformed;
use std::io;
use std::io::{Read, Write};

const LONGEST_FRAME: usize = 99999;

const LONGEST_REPORT: usize = 1048576;

const LONGEST_TEXT: usize = 1048592;

// Reads a text to the start of the room: its length, or none at the end of the input.
fn read_text<R: Read>(input: &mut R, room: &mut [u8]) -> Result<Option<usize>, Malformed>
    ensures { IfOk result (λ read. IfSome read (λ n. n ≤ length room.new)) }
{
    let mut n = 0;
    while n <= room.len() {
        match frames::read(input, &mut room[n..])? {
            Some(length) => {
                n += length;
                if length < LONGEST_FRAME {
                    return Ok(Some(n));
                }
            }
            None if n == 0 => return Ok(None),
            None => return Err(Malformed),
        }
    }
    Err(Malformed)
}

// Writes a text.
fn write_text<W: Write>(output: &mut W, text: &[u8]) -> io::Result<()> {
    let parts = text.chunks_exact(LONGEST_FRAME);
    let last = parts.remainder();
    for part in parts {
        frames::write(output, part)?;
    }
    frames::write(output, last)
}

// The text that answers a pair.
fn answer<'a, W: Write>(
    output: &mut W,
    first: &'a [u8],
    second: &'a [u8],
    out: &mut [u8],
) -> io::Result<()> {
    let length = compare::compared_text(first, second, out);
    write_text(output, &out[..length])
}

// Every pair, to the end of the input.
fn compare_all<R: Read, W: Write>(input: &mut R, output: &mut W) -> io::Result<()> {
    let mut first = [0u8; LONGEST_REPORT];
    let mut second = [0u8; LONGEST_REPORT];
    let mut out = [0u8; LONGEST_TEXT];
    for _ in 0..u64::MAX {
        let Some(n) = read_text(input, &mut first)? else {
            break;
        };
        let m = read_text(input, &mut second)?.ok_or(Malformed)?;
        answer(output, &first[..n], &second[..m], &mut out)?;
    }
    Ok(())
}

fn main(rt: HostRuntime) {
    if let Err(error) = compare_all(&mut rt.stdin(), &mut rt.stdout()) {
        let place = frames::place(error.kind());
        let _ = eprintln!(rt; "pairs: {place}{error}");
    }
}
