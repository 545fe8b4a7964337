// Two reports compared: is each well formed, where do they part, and the rest of the longer one from there on, as a part of it.

#![tactic(auto)]

ghost use Rattle.std.specs.Prelude.{◌≡◌, false, IfSome, ◌+◌, ◌≤◌, ◌<◌, length, [], ◌∷◌};
ghost use Rattle.paper.specs.Text.{fields};
ghost use Rattle.fields.specs.Fields.{ends_field, line_at};
ghost use Rattle.paper.specs.Comparison.{same_text, a_number, a_name, a_rule, lettered, fits, fault_shaped, unreached_shaped, bad_line, parting, pieces, compared, longer, rest_place};
ghost use Rattle.compare.specs.Places.{shape_of, shapes_of, field_place, behind_place, line_place, header_told, line_found, TabTold, PlaceWithin, LineWithin, HeaderWithin, ComparedWithin, PartOf, Handed, judgement_of};
ghost use Rattle.lists.specs.Sets.{Wrote};
ghost use Rattle.compare.specs.Written.{parted_text, malformed_text, compared_text, longest_text, no_room, Told};

use Shape::{Byte, Name, Number, Register, Slot};
use fields::End;
use paper::{Compared, Side};

// What two reports come to, over the C interface: 0 equal, 1 they part, 2 malformed.
#[repr(C)]
#[derive(Clone, Copy)]
pub struct Judgement {
    pub answer: u8,
    pub side: u8,
    pub line: usize,
    pub place: usize,
}

// What a field must be: a number, a name, a register, a slot, or a byte that stands there alone.
#[derive(Clone, Copy)]
enum Shape {
    Number,
    Name,
    Register,
    Slot,
    Byte(u8),
}

// The longest report that is compared as text, and the room for what is written of two.
const LONGEST_REPORT: usize = 1048576;

const LONGEST_TEXT: usize = 1048592;

const FIELDS: usize = 8;

const KINDS: usize = 7;

// The letter of a fault's line, and what stands where it has no name.
const E: Shape = Byte(b'E');

const NONE: Shape = Byte(b'-');

// The lines of faults, one for each kind.
const SHAPES: [[Shape; FIELDS]; KINDS] = [
    [E, Number, Number, Number, Byte(b'1'), NONE, Name, NONE],
    [E, Number, Number, Number, Byte(b'2'), Register, NONE, NONE],
    [E, Number, Number, Number, Byte(b'3'), Register, Name, Name],
    [E, Number, Number, Number, Byte(b'4'), Slot, Name, NONE],
    [E, Number, Number, Number, Byte(b'5'), Slot, Name, Name],
    [E, Number, Number, Number, Byte(b'6'), Slot, NONE, NONE],
    [E, Number, Number, Number, Byte(b'7'), Slot, NONE, NONE],
];

// A field that is this text.
fn text_at(s: &[u8], at: usize, text: &[u8]) -> Option<usize>
    requires { at ≤ length s.now }
    ensures value { result ≡ field_place (same_text text.now) s.now at }
    ensures within { PlaceWithin s.now at result }
{
    let mut next = at;
    for &b in text {
        if fields::ends(s, next).is_some() {
            return None;
        }
        if s.len() <= next {
            return None;
        }
        if s[next] != b {
            return None;
        }
        next += 1;
    }
    if next < s.len() {
        fields::ends(s, next)?;
    }
    Some(next)
}

// A field that is a number of document 01.
fn number_at(s: &[u8], at: usize) -> Option<usize>
    ensures value { result ≡ field_place a_number s.now at }
    ensures within { PlaceWithin s.now at result }
{
    let (_, next) = fields::read_number(s, at)?;
    Some(next)
}

// A field that is a name.
fn name_at(s: &[u8], at: usize) -> Option<usize>
    ensures value { result ≡ field_place a_name s.now at }
    ensures within { PlaceWithin s.now at result }
{
    let (_, next) = fields::read_name(s, at)?;
    Some(next)
}

// A field that is this letter and a number behind it.
fn lettered_at(s: &[u8], at: usize, letter: u8) -> Option<usize>
    requires { ends_field letter ≡ false }
    ensures value { result ≡ field_place (lettered letter) s.now at }
    ensures within { PlaceWithin s.now at result }
{
    if s.len() <= at {
        return None;
    }
    if s[at] != letter {
        return None;
    }
    let (_, next) = fields::read_number(s, at + 1)?;
    Some(next)
}

// A field of this shape.
fn field_at(s: &[u8], at: usize, shape: Shape) -> Option<usize>
    requires { at ≤ length s.now }
    ensures value { result ≡ field_place (shape_of shape) s.now at }
    ensures within { PlaceWithin s.now at result }
{
    match shape {
        Number => number_at(s, at),
        Name => name_at(s, at),
        Register => lettered_at(s, at, b'r'),
        Slot => lettered_at(s, at, b's'),
        Byte(b) => text_at(s, at, &[b]),
    }
}

// The place behind a tab at `at`.
fn behind_tab(s: &[u8], at: usize) -> Option<usize>
    ensures { TabTold s.now at result }
{
    match fields::ends(s, at)? {
        End::Tab => Some(at + 1),
        End::LineFeed => None,
    }
}

// A field of this shape behind a tab at `at`.
fn field_behind(s: &[u8], at: usize, shape: Shape) -> Option<usize>
    requires { at ≤ length s.now }
    ensures value { result ≡ behind_place (shape_of shape) s.now at }
    ensures within { PlaceWithin s.now at result }
{
    let next = behind_tab(s, at)?;
    field_at(s, next, shape)
}

// A line whose fields have these shapes: the place of its line feed.
fn line_of(s: &[u8], at: usize, shapes: &[Shape]) -> Option<usize>
    requires { (at ≤ length s.now) × (0 < length shapes.now) }
    ensures value { result ≡ line_place (fits (shapes_of shapes.now) (fields (line_at s.now at))) s.now at }
    ensures within { LineWithin s.now at result }
{
    let mut next = field_at(s, at, shapes[0])?;
    // By index: over `&shapes[1..]` the invariant would speak of a part of the list, and of how it stands to the whole.
    for i in 1..shapes.len() {
        next = field_behind(s, next, shapes[i])?;
    }
    match fields::ends(s, next)? {
        End::LineFeed => Some(next),
        End::Tab => None,
    }
}

// A fault's line: the place of its line feed.
fn line_at(s: &[u8], at: usize) -> Option<usize>
    requires { at ≤ length s.now }
    ensures value { result ≡ line_place (fault_shaped (line_at s.now at)) s.now at }
    ensures within { LineWithin s.now at result }
{
    for shapes in &SHAPES {
        if let Some(next) = line_of(s, at, shapes) {
            return Some(next);
        }
    }
    None
}

// An unreached block's line: the place of its line feed.
fn unreached_at(s: &[u8], at: usize) -> Option<usize>
    requires { at ≤ length s.now }
    ensures value { result ≡ line_place (unreached_shaped (line_at s.now at)) s.now at }
    ensures within { LineWithin s.now at result }
{
    line_of(s, at, &[Byte(b'N'), Number])
}

// A rule's name behind a tab at `at`.
fn rule_behind(s: &[u8], at: usize) -> Option<usize>
    requires { at ≤ length s.now }
    ensures value { result ≡ behind_place a_rule s.now at }
    ensures within { PlaceWithin s.now at result }
{
    let start = behind_tab(s, at)?;
    if let Some(next) = text_at(s, start, b"old") {
        return Some(next);
    }
    text_at(s, start, b"house")
}

// The header: the count that it says, and the place of its line feed.
fn header(s: &[u8]) -> Option<(u32, usize)>
    ensures value { result ≡ header_told s.now }
    ensures within { HeaderWithin s.now result }
{
    let letter = text_at(s, 0, b"R")?;
    let rule = rule_behind(s, letter)?;
    let start = behind_tab(s, rule)?;
    let (count, next) = fields::read_number(s, start)?;
    match fields::ends(s, next)? {
        End::LineFeed => Some((count, next)),
        End::Tab => None,
    }
}

// The first bad line of a report, from 1, if there is one.
fn bad_line(s: &[u8]) -> Option<usize>
    ensures value { result ≡ line_found (bad_line s.now) }
    ensures within { IfSome result (λ line. line ≤ length s.now + 1) }
{
    let Some((count, end)) = header(s) else {
        return Some(1);
    };
    let mut at = end + 1;
    let mut faults: usize = 0;
    let mut line: usize = 2;
    while at < s.len() {
        if let Some(next) = line_at(s, at) {
            at = next + 1;
            faults += 1;
            line += 1;
            continue;
        }
        let Some(next) = unreached_at(s, at) else {
            return Some(line);
        };
        at = next + 1;
        line += 1;
    }
    if count as usize == faults {
        None
    } else {
        Some(1)
    }
}

// Where two texts part: the line, and the place of its first byte.
fn part(first: &[u8], second: &[u8]) -> Compared
    ensures value { result ≡ parting 1 0 (pieces first.now) (pieces second.now) }
    ensures within { ComparedWithin first.now second.now result }
{
    let mut line: usize = 1;
    let mut place: usize = 0;
    for (at, &b) in first.iter().enumerate() {
        if second.len() <= at {
            return Compared::Parts { line, place };
        }
        if b != second[at] {
            return Compared::Parts { line, place };
        }
        if b == b'\n' {
            line += 1;
            place = at + 1;
        }
    }
    if second.len() == first.len() {
        Compared::Equal
    } else {
        Compared::Parts { line, place }
    }
}

// Compares two reports.
pub fn compare(first: &[u8], second: &[u8]) -> Compared
    ensures value { result ≡ compared first.now second.now }
    ensures within { ComparedWithin first.now second.now result }
{
    if let Some(line) = bad_line(first) {
        return Compared::Malformed {
            side: Side::First,
            line,
        };
    }
    if let Some(line) = bad_line(second) {
        return Compared::Malformed {
            side: Side::Second,
            line,
        };
    }
    part(first, second)
}

// Where in the longer report, of so many bytes, begins what is handed back.
fn rest_place(size: usize, compared: Compared) -> usize
    ensures { result ≡ rest_place size compared }
{
    match compared {
        Compared::Equal => size,
        Compared::Parts { line, place } => place,
        Compared::Malformed { side, line } => size,
    }
}

// The part of a report from a place to its end.
fn part_from<'a>(s: &'a [u8], from: usize) -> &'a [u8]
    requires { from ≤ length s.now }
    ensures { PartOf s.entry from result }
{
    &s[from..]
}

// The rest of the longer report, of two equally long the first, from the line on where the two part: a part of that report, not a
// copy. It is empty where they are equal or one is malformed.
pub fn rest<'a>(first: &'a [u8], second: &'a [u8]) -> &'a [u8]
    ensures { Handed first.entry second.entry result }
{
    let compared = compare(first, second);
    if first.len() < second.len() {
        let from = rest_place(second.len(), compared);
        part_from(second, from)
    } else {
        let from = rest_place(first.len(), compared);
        part_from(first, from)
    }
}

impl From<Compared> for Judgement {
    ghost use Rattle.std.specs.Prelude.{◌≡◌};
    ghost use Rattle.compare.specs.Places.{judgement_of};

    ghost from_gives = { λ compared judgement. judgement ≡ judgement_of compared };

    #[tactic(auto, unfolding(crate::specs::Places::judgement_of))]
    fn from(compared: Compared) -> Judgement {
        match compared {
            Compared::Equal => Judgement {
                answer: 0,
                side: 0,
                line: 0,
                place: 0,
            },
            Compared::Parts { line, place } => Judgement {
                answer: 1,
                side: 0,
                line,
                place,
            },
            Compared::Malformed { side, line } => Judgement {
                answer: 2,
                side: u8::from(side),
                line,
                place: 0,
            },
        }
    }
}

// Compares two reports, for C.
#[unsafe(no_mangle)]
pub extern "C" fn itanropen_compare(first: &[u8], second: &[u8]) -> Judgement
    ensures { result ≡ judgement_of (compared first.now second.now) }
{
    Judgement::from(compare(first, second))
}

// `D line`, at the start of the room.
fn write_parted(out: &mut [u8], line: u32) -> usize
    requires { 16 ≤ length out.old }
    ensures { Wrote out.old 0 (parted_text line) out.new result × (result ≤ 16) }
{
    let a = fields::write_byte(out, 0, b'D');
    let b = fields::write_before_number(out, a, b'\t', line);
    fields::write_byte(out, b, b'\n')
}

// `M side line`.
fn write_malformed(out: &mut [u8], side: u32, line: u32) -> usize
    requires { 16 ≤ length out.old }
    ensures { Wrote out.old 0 (malformed_text side line) out.new result × (result ≤ 16) }
{
    let a = fields::write_byte(out, 0, b'M');
    let b = fields::write_before_number(out, a, b'\t', side);
    let c = fields::write_before_number(out, b, b'\t', line);
    fields::write_byte(out, c, b'\n')
}

// Is a report too long, or the room for the text too short?
fn no_room(first: &[u8], second: &[u8], out: &[u8]) -> bool
    ensures { result ≡ no_room first.now second.now out.now }
{
    if LONGEST_REPORT < first.len() {
        return true;
    }
    if LONGEST_REPORT < second.len() {
        return true;
    }
    out.len() < LONGEST_TEXT
}

// What the program writes of two reports, at the start of the room: its length; 0, and nothing is written, where there is no room.
pub fn compared_text<'a>(first: &'a [u8], second: &'a [u8], out: &mut [u8]) -> usize
    ensures { Told first.now second.now out.old out.new result }
{
    if no_room(first, second, out) {
        return 0;
    }
    let compared = compare(first, second);
    match compared {
        Compared::Equal => write_parted(out, 0),
        Compared::Parts { line, place } => {
            let end = write_parted(out, line as u32);
            fields::write_text(out, end, rest(first, second))
        }
        Compared::Malformed { side, line } => write_malformed(
            out,
            u8::from(side) as u32,
            line as u32,
        ),
    }
}
