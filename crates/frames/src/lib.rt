// Frames of a reader and a writer: a line `#` and a decimal length of at most five digits, then that many bytes.

#![tactic(auto)]

ghost use Rattle.std.specs.Prelude.{◌≡◌, OnOk, IfSome, ◌≤◌, length, take, codes};
ghost use Rattle.std.specs.declared.io.ErrorKind.TheVariants.{InvalidData};
ghost use Rattle.std.specs.Io.KnownBytes.{Appends, Consumes};
ghost use Rattle.lists.specs.Sets.{Wrote};
ghost use Rattle.frames.specs.Frame.{longest_frame, longest_head, frame_head, framed, length_of, ByteTaken, LineLeft, FrameLeft, FrameTaken, EachAnswered};

use fields::End;
use std::error::Error;
use std::io::{Eprint, ErrorKind, Read, Write};
use std::{fmt, io};

#[cfg(test)]
mod tests;

const LONGEST_FRAME: usize = 99999;

// What came is no frame.
#[derive(Clone, Copy, Debug, PartialEq, Eq)]
pub struct Malformed;

impl fmt::Display for Malformed {
    ghost use Rattle.std.specs.Prelude.{Some, codes};

    ghost output = { λ _. Some (codes "malformed frame") };

    fn fmt<W: fmt::Write>(&self, f: &mut fmt::Formatter<W>) -> fmt::Result {
        f.write_str("malformed frame")
    }
}

impl Error for Malformed {}

impl From<Malformed> for io::Error {
    ghost use Rattle.std.specs.Prelude.{◌≡◌};
    ghost use Rattle.std.specs.IoError.{error_kind};
    ghost use Rattle.std.specs.declared.io.ErrorKind.TheVariants.{InvalidData};

    ghost from_gives = { λ _ error. error_kind error ≡ InvalidData };

    fn from(_malformed: Malformed) -> io::Error {
        io::Error::new(ErrorKind::InvalidData, "malformed frame")
    }
}

fn read_byte<R: Read>(input: &mut R) -> Option<u8>
    ensures { ByteTaken (R.remaining input.old) (R.remaining input.new) result }
{
    let mut one = [0u8; 1];
    match input.read(&mut one) {
        Ok(1) => Some(one[0]),
        _ => None,
    }
}

// Reads a line to the start of `line`, at most as much as it has room for: its length.
fn read_line<R: Read>(input: &mut R, line: &mut [u8]) -> usize
    ensures left { LineLeft line.old line.new result }
    ensures taken { Consumes (R.remaining input.old) (R.remaining input.new) (take result line.new) }
{
    for i in 0..line.len() {
        let Some(b) = read_byte(input) else {
            return i;
        };
        line[i] = b;
        if b == b'\n' {
            return i + 1;
        }
    }
    line.len()
}

// The length that a frame's first line says.
fn length_of(line: &[u8]) -> Option<usize>
    ensures value { result ≡ length_of line.now }
    ensures within { IfSome result (λ n. n ≤ longest_frame) }
{
    if !line.starts_with(b"#") {
        return None;
    }
    let (n, end) = fields::read_number(line, 1)?;
    match fields::ends(line, end)? {
        End::LineFeed => Some(n as usize),
        End::Tab => None,
    }
}

// Reads one frame to the start of the room: its length, or none at the end of the input.
pub fn read<R: Read>(input: &mut R, room: &mut [u8]) -> Result<Option<usize>, Malformed>
    ensures left { FrameLeft room.old room.new result }
    ensures taken { FrameTaken (R.remaining input.old) (R.remaining input.new) room.new result }
{
    let mut head = [0u8; 7];
    let n = read_line(input, &mut head);
    if n == 0 {
        return Ok(None);
    }
    let Some(length) = length_of(&head[..n]) else {
        return Err(Malformed);
    };
    if room.len() < length {
        return Err(Malformed);
    }
    if input.read_exact(&mut room[..length]).is_err() {
        return Err(Malformed);
    }
    Ok(Some(length))
}

// Has each frame of the input answered, to its end.
pub fn each<R: Read, W: Write, F: FnMut(&mut W, &[u8]) -> io::Result<()>>(
    input: &mut R,
    output: &mut W,
    room: &mut [u8],
    mut reply: F,
) -> io::Result<()>
    requires { F.IsAlwaysCallable reply }
    ensures { OnOk result ((last : F) × EachAnswered F.FnMut (R.remaining input.old) (R.remaining input.new)
        (reply, output.old) (last, output.new)) }
{
    for _ in 0..u64::MAX {
        let Some(length) = read(input, room)? else {
            return Ok(());
        };
        reply(output, &room[..length])?;
    }
    Ok(())
}

// Where a program over frames failed, by the kind of its error: a malformed frame is named by the error alone, all else befell
// standard output.
pub fn place(kind: ErrorKind) -> &'static str
    ensures malformed { kind ≡ InvalidData → result.now ≡ codes "" }
    ensures output { (kind ≡ InvalidData → ⊥) → result.now ≡ codes "standard output: " }
{
    match kind {
        ErrorKind::InvalidData => "",
        _ => "standard output: ",
    }
}

// Tells on standard error why a program over frames ended before its input, where it did.
pub fn explain<P: Eprint>(rt: &P, program: &str, done: io::Result<()>) {
    if let Err(error) = done {
        let place = place(error.kind());
        let _ = eprintln!(rt; "{program}: {place}{error}");
    }
}

// The first line of a frame of n bytes, at the start of `head`: its length.
fn write_head(head: &mut [u8], n: usize) -> usize
    requires { (n ≤ longest_frame) × (longest_head ≤ length head.old) }
    ensures { Wrote head.old 0 (frame_head n) head.new result × (result ≤ longest_head) }
{
    let end = fields::write_before_number(head, 0, b'#', n as u32);
    fields::write_byte(head, end, b'\n')
}

// Writes a text of at most 99,999 bytes as a frame.
pub fn write<W: Write>(output: &mut W, text: &[u8]) -> io::Result<()>
    ensures within { OnOk result (length text.now ≤ longest_frame) }
    ensures written { OnOk result (Appends (W.contents output.old) (W.contents output.new) (framed text.now)) }
{
    if LONGEST_FRAME < text.len() {
        return Err(io::Error::from(ErrorKind::InvalidInput));
    }
    let mut head = [0u8; 7];
    let end = write_head(&mut head, text.len());
    output.write_all(&head[..end])?;
    output.write_all(text)
}
