// Text fields: a number, a name or an allocation read at a place of a text, and numbers and names written into a lent buffer.

#![tactic(auto)]

ghost use Rattle.std.specs.Prelude.{◌≡◌, [], ◌∷◌, ◌+◌, ◌≤◌, ◌<◌, length};
ghost use Rattle.lists.specs.Sets.{Wrote};
ghost use Rattle.paper.specs.Text.{is_digit, digit_from, digits, name_text};
ghost use Rattle.fields.specs.Fields.{ends_field, number_at, name_at, allocation_at, end_at, NumberWithin, NameWithin, AllocationWithin, EndWithin, named};

// A name, real or virtual, by its number.
#[derive(Clone, Copy, PartialEq, Eq)]
pub enum Name {
    Real(u32),
    Virtual(u32),
}

// What ends a field: a tab, behind which another field follows, or a line feed, behind which the next line stands.
#[derive(Clone, Copy, PartialEq, Eq)]
pub enum End {
    Tab,
    LineFeed,
}

// The digit 0 in 32 bits, where a digit's value is taken: a difference of eight bits would have to be cut to them first.
const ZERO: u32 = 48;

fn is_digit(b: u8) -> bool
    ensures { result ≡ is_digit b }
{
    b.is_ascii_digit()
}

fn ends_field(b: u8) -> bool
    ensures { result ≡ ends_field b }
{
    (b == b'\t') | (b == b'\n')
}

// What ends a field at `at`, or that nothing does.
#[tactic(auto, unfolding(crate::specs::Fields::end_at))]
pub fn ends(s: &[u8], at: usize) -> Option<End>
    ensures value { result ≡ end_at s.now at }
    ensures within { EndWithin s.now at result }
{
    match s.get(at) {
        Some(b'\t') => Some(End::Tab),
        Some(b'\n') => Some(End::LineFeed),
        _ => None,
    }
}

// The number that the field at `at` says, and the place behind it.
pub fn read_number(s: &[u8], at: usize) -> Option<(u32, usize)>
    ensures value { result ≡ number_at s.now at }
    ensures within { NumberWithin s.now at result }
{
    let first = *s.get(at)?;
    if !is_digit(first) {
        return None;
    }
    let mut v = first as u32 - ZERO;
    for i in at + 1..s.len() {
        let b = s[i];
        if ends_field(b) {
            return Some((v, i));
        }
        if !is_digit(b) {
            return None;
        }
        if v == 0 {
            return None;
        }
        if 9999 < v {
            return None;
        }
        v = v * 10 + (b as u32 - ZERO);
    }
    Some((v, s.len()))
}

// The name that the field at `at` says, and the place behind it.
pub fn read_name(s: &[u8], at: usize) -> Option<(Name, usize)>
    ensures value { result ≡ name_at s.now at }
    ensures within { NameWithin s.now at result }
{
    let b = *s.get(at)?;
    if (b != b'r') & (b != b'v') {
        return None;
    }
    let (n, next) = read_number(s, at + 1)?;
    let name = if b == b'r' {
        Name::Real(n)
    } else {
        Name::Virtual(n)
    };
    Some((name, next))
}

// The allocation that the field at `at` says, a register's number or `-` for none, and the place behind it.
pub fn read_allocation(s: &[u8], at: usize) -> Option<(Option<u32>, usize)>
    ensures value { result ≡ allocation_at s.now at }
    ensures within { AllocationWithin s.now at result }
{
    if *s.get(at)? != b'-' {
        let (r, next) = read_number(s, at)?;
        return Some((Some(r), next));
    }
    let next = at + 1;
    if next < s.len() {
        if !ends_field(s[next]) {
            return None;
        }
    }
    Some((None, next))
}

pub fn write_byte(out: &mut [u8], at: usize, b: u8) -> usize
    requires { at < length out.old }
    ensures { Wrote out.old at (b ∷ []) out.new result }
{
    out[at] = b;
    at + 1
}

// A text, at a place of a buffer.
pub fn write_text(out: &mut [u8], at: usize, text: &[u8]) -> usize
    requires { at + length text.now ≤ length out.old }
    ensures { Wrote out.old at text.now out.new result }
{
    let end = at + text.len();
    out[at..end].copy_from_slice(text);
    end
}

// The digit of `v` at a unit of ten, where the number reaches it.
fn write_digit(out: &mut [u8], at: usize, v: u32, unit: u32) -> usize
    requires { (0 < unit) × (at + length (digit_from unit v) ≤ length out.old) }
    ensures { Wrote out.old at (digit_from unit v) out.new result }
{
    if unit <= v {
        out[at] = (48 + v / unit % 10) as u8;
        at + 1
    } else {
        at
    }
}

// The number's one spelling; of a number above 99,999 the last five digits.
fn write_number(out: &mut [u8], at: usize, v: u32) -> usize
    requires { at + length (digits v) ≤ length out.old }
    ensures { Wrote out.old at (digits v) out.new result }
{
    let a = write_digit(out, at, v, 10000);
    let b = write_digit(out, a, v, 1000);
    let c = write_digit(out, b, v, 100);
    let d = write_digit(out, c, v, 10);
    write_byte(out, d, (48 + v % 10) as u8)
}

// A byte and a number behind it: `rN`, `sN`, or a tab and the number.
pub fn write_before_number(out: &mut [u8], at: usize, b: u8, v: u32) -> usize
    requires { at + length (b ∷ digits v) ≤ length out.old }
    ensures { Wrote out.old at (b ∷ digits v) out.new result }
{
    let next = write_byte(out, at, b);
    write_number(out, next, v)
}

// A real or a virtual name.
pub fn write_name(out: &mut [u8], at: usize, name: Name) -> usize
    requires { at + length (name_text (named name)) ≤ length out.old }
    ensures { Wrote out.old at (name_text (named name)) out.new result }
{
    match name {
        Name::Real(n) => write_before_number(out, at, b'r', n),
        Name::Virtual(n) => write_before_number(out, at, b'v', n),
    }
}
