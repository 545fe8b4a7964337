// Writes forms made by hand, in bulk: standard input is frames, each three bytes, the size of the room to write to, and behind them words
// of two bytes, all lowest byte first. Each is answered by three frames: `T` where the form was written, `S` where no sheet gives it, `R`
// where the room is too small; the text, empty where there is none; and what the room holds afterwards, which held dots before.

#![tactic(auto)]

ghost use Rattle.std.specs.Prelude.{◌≤◌, length};

use paper::Unwritten;
use std::io;
use std::io::{Read, Write};

const HEAD: usize = 3;

// The words behind the head, as many as there are and as there is room for: how many.
fn unpack(bytes: &[u8], words: &mut [u16]) -> usize
    ensures { result ≤ length words.new }
{
    let Some(rest) = bytes.get(HEAD..) else {
        return 0;
    };
    let (pairs, _) = rest.as_chunks::<2>();
    for (word, pair) in words.iter_mut().zip(pairs) {
        *word = u16::from_le_bytes(*pair);
    }
    words.len().min(pairs.len())
}

// The size that the head names, and at most `most`.
fn size_of(bytes: &[u8], most: usize) -> usize
    ensures { result ≤ most }
{
    if bytes.len() < HEAD {
        return 0;
    }
    let size = u32::from_le_bytes([bytes[0], bytes[1], bytes[2], 0]);
    most.min(size as usize)
}

// The first two frames.
fn write_answer<W: Write>(output: &mut W, words: &[u16], room: &mut [u8]) -> io::Result<()> {
    match writer::write_sheet(words, room) {
        Ok(length) => {
            frames::write(output, b"T")?;
            frames::write(output, &room[..length])
        }
        Err(Unwritten::NoSheet) => {
            frames::write(output, b"S")?;
            frames::write(output, b"")
        }
        Err(Unwritten::NoRoom) => {
            frames::write(output, b"R")?;
            frames::write(output, b"")
        }
    }
}

// The three frames of one form.
fn write_reply<W: Write>(output: &mut W, words: &[u16], room: &mut [u8]) -> io::Result<()> {
    room.fill(b'.');
    write_answer(output, words, room)?;
    frames::write(output, room)
}

// The frames that answer a form.
fn write_form<W: Write>(
    output: &mut W,
    bytes: &[u8],
    words: &mut [u16],
    room: &mut [u8],
) -> io::Result<()> {
    let count = unpack(bytes, words);
    let size = size_of(bytes, room.len());
    write_reply(output, &words[..count], &mut room[..size])
}

// Every form, to the end of the input.
fn write_all<R: Read, W: Write>(input: &mut R, output: &mut W) -> io::Result<()> {
    let mut bytes = [0u8; 70000];
    let mut words = [0u16; 33000];
    let mut room = [0u8; 66000];
    frames::each(input, output, &mut bytes, |output, bytes| {
        write_form(output, bytes, &mut words, &mut room)
    })
}

fn main(rt: HostRuntime) {
    if let Err(error) = write_all(&mut rt.stdin(), &mut rt.stdout()) {
        let place = frames::place(error.kind());
        let _ = eprintln!(rt; "forms: {place}{error}");
    }
}
