// A reader that holds the sheet and its place: the field functions of `fields` again, over one struct. It is Copy, and what a
// function reads says where the next reader stands.

#![tactic(auto)]

ghost use Rattle.std.specs.Prelude.{◌≡◌};
ghost use Rattle.fields.specs.Fields.{number_at, name_at, allocation_at, end_at, NumberWithin, NameWithin, AllocationWithin, EndWithin};
ghost use Rattle.reader.specs.Pairs.{pair_at};

use fields::{End, Name};

#[derive(Clone, Copy)]
pub struct Reader<'a> {
    pub sheet: &'a [u8],
    pub at: usize,
}

impl<'a> Reader<'a> {
    pub fn new(sheet: &'a [u8], at: usize) -> Reader<'a>
        ensures { (result.sheet ≡ sheet.entry) × (result.at ≡ at) }
    {
        Reader { sheet, at }
    }

    // The same sheet at another place.
    pub fn moved(self, at: usize) -> Reader<'a>
        ensures { (result.sheet ≡ self.entry.sheet) × (result.at ≡ at) }
    {
        Reader {
            sheet: self.sheet,
            at,
        }
    }

    // The number that the field at the reader's place says, and the place behind it.
    pub fn number(self) -> Option<(u32, usize)>
        ensures value { result ≡ number_at self.entry.sheet.now self.entry.at }
        ensures within { NumberWithin self.entry.sheet.now self.entry.at result }
    {
        fields::read_number(self.sheet, self.at)
    }

    // The name that the field at the reader's place says, and the place behind it.
    pub fn name(self) -> Option<(Name, usize)>
        ensures value { result ≡ name_at self.entry.sheet.now self.entry.at }
        ensures within { NameWithin self.entry.sheet.now self.entry.at result }
    {
        fields::read_name(self.sheet, self.at)
    }

    // The allocation that the field at the reader's place says, and the place behind it.
    pub fn allocation(self) -> Option<(Option<u32>, usize)>
        ensures value { result ≡ allocation_at self.entry.sheet.now self.entry.at }
        ensures within { AllocationWithin self.entry.sheet.now self.entry.at result }
    {
        fields::read_allocation(self.sheet, self.at)
    }

    // What ends a field at the reader's place, or that nothing does.
    pub fn ends(self) -> Option<End>
        ensures value { result ≡ end_at self.entry.sheet.now self.entry.at }
        ensures within { EndWithin self.entry.sheet.now self.entry.at result }
    {
        fields::ends(self.sheet, self.at)
    }
}

// Each of the four again for a caller with a slice and a place: the forms that document 01 asks for, held by must-fail edits of their own.

pub fn number_from(s: &[u8], at: usize) -> Option<(u32, usize)>
    ensures value { result ≡ number_at s.now at }
    ensures within { NumberWithin s.now at result }
{
    Reader::new(s, at).number()
}

pub fn name_from(s: &[u8], at: usize) -> Option<(Name, usize)>
    ensures value { result ≡ name_at s.now at }
    ensures within { NameWithin s.now at result }
{
    Reader::new(s, at).name()
}

pub fn allocation_from(s: &[u8], at: usize) -> Option<(Option<u32>, usize)>
    ensures value { result ≡ allocation_at s.now at }
    ensures within { AllocationWithin s.now at result }
{
    Reader::new(s, at).allocation()
}

pub fn ends_from(s: &[u8], at: usize) -> Option<End>
    ensures value { result ≡ end_at s.now at }
    ensures within { EndWithin s.now at result }
{
    Reader::new(s, at).ends()
}

// The two numbers that `S`, `L` and `M` have behind their letter, and no field more; and the place where the line ends.
pub fn read_pair(s: &[u8], at: usize) -> Option<(u32, u32, usize)>
    ensures { result ≡ pair_at s.now at }
{
    let (a, i) = number_from(s, at)?;
    let End::Tab = ends_from(s, i)? else {
        return None;
    };
    let (b, j) = number_from(s, i + 1)?;
    let Some(end) = ends_from(s, j) else {
        return Some((a, b, j));
    };
    match end {
        End::Tab => None,
        End::LineFeed => Some((a, b, j)),
    }
}
