// Runs a stored list of sheets: the input is frames, each sheet followed by what is stored of it. What is stored is computed
// anew and compared; the last line says how many sheets differ.

#![tactic(auto)]

ghost use Rattle.std.specs.Prelude.{◌≡◌};
ghost use Rattle.stored.specs.Counted as told;

use layout::{QUEUE_SIZE, WORDS_SIZE};
use paper::Rule;
use states::{Part, STATES_SIZE};
use std::io;
use std::io::{Read, Write};

// The most sheets of one kind that are counted.
const MOST: u64 = 1000000;

// What one sheet came to.
#[derive(Clone, Copy)]
pub enum Outcome {
    Same,
    Different,
    End,
}

// How many sheets were the same and how many not, and whether the list goes on.
#[derive(Clone, Copy)]
pub struct Tally {
    pub same: u64,
    pub different: u64,
    pub more: bool,
}

// One more, where it can be counted.
#[tactic(auto, unfolding(crate::specs::Counted::next))]
fn next(n: u64) -> u64
    ensures { result ≡ told.next n }
{
    if n < MOST { n + 1 } else { n }
}

// The tally with one sheet more.
#[tactic(auto, unfolding(crate::specs::Counted::counted))]
pub fn counted(tally: Tally, outcome: Outcome) -> Tally
    ensures { result ≡ told.counted tally outcome }
{
    match outcome {
        Outcome::Same => Tally {
            same: next(tally.same),
            more: true,
            ..tally
        },
        Outcome::Different => Tally {
            different: next(tally.different),
            more: true,
            ..tally
        },
        Outcome::End => Tally {
            more: false,
            ..tally
        },
    }
}

// Writes how many sheets were the same, and how many differ.
pub fn say<W: Write>(output: &mut W, tally: Tally) -> io::Result<()> {
    let same = tally.same;
    let different = tally.different;
    writeln!(output, "{same} sheets the same, {different} different")
}

// What is stored of a sheet: its old answer, its house answer, its old and its house entry states; or `X number line field` where it is
// refused and `ok` where it is read.
#[derive(Clone, Copy)]
pub enum List {
    Answers,
    Readings,
}

// What the checker is lent for its own use.
#[derive(Drop)]
struct Scratch {
    words: [u16; WORDS_SIZE],
    queue: [u8; QUEUE_SIZE],
}

// Is the next frame the text?
fn next_is<R: Read>(input: &mut R, text: &[u8], stored: &mut [u8]) -> bool {
    match frames::read(input, stored) {
        Ok(Some(length)) => text == &stored[..length],
        _ => false,
    }
}

// Is one part of a sheet's texts what is stored, under both rules?
fn same_part<R: Read>(
    input: &mut R,
    part: Part,
    sheet: &[u8],
    stored: &mut [u8],
    text: &mut [u8],
    scratch: &mut Scratch,
) -> bool {
    let old = states::text_of(
        part,
        Rule::Old,
        sheet,
        text,
        &mut scratch.words,
        &mut scratch.queue,
    );
    let first = next_is(input, &text[..old], stored);
    let house = states::text_of(
        part,
        Rule::House,
        sheet,
        text,
        &mut scratch.words,
        &mut scratch.queue,
    );
    let second = next_is(input, &text[..house], stored);
    first & second
}

// Does an answer agree with the next frame? A report says that the sheet was read.
fn agrees<R: Read>(input: &mut R, text: &[u8], stored: &mut [u8]) -> bool {
    match text.first() {
        Some(b'X') => next_is(input, text, stored),
        Some(_) => next_is(input, b"ok\n", stored),
        None => false,
    }
}

// Is what the reader makes of a sheet what is stored?
fn same_reading<R: Read>(
    input: &mut R,
    sheet: &[u8],
    stored: &mut [u8],
    text: &mut [u8],
    scratch: &mut Scratch,
) -> bool {
    let said = states::text_of(
        Part::Answer,
        Rule::House,
        sheet,
        text,
        &mut scratch.words,
        &mut scratch.queue,
    );
    agrees(input, &text[..said], stored)
}

// Is all that the list has of a sheet what is stored?
fn same<R: Read>(
    input: &mut R,
    list: List,
    sheet: &[u8],
    stored: &mut [u8],
    text: &mut [u8],
    scratch: &mut Scratch,
) -> bool {
    match list {
        List::Answers => {
            let answers = same_part(input, Part::Answer, sheet, stored, text, scratch);
            let states = same_part(input, Part::States, sheet, stored, text, scratch);
            answers & states
        }
        List::Readings => same_reading(input, sheet, stored, text, scratch),
    }
}

// One sheet and what is stored of it.
fn one<R: Read>(
    input: &mut R,
    list: List,
    sheet: &mut [u8],
    stored: &mut [u8],
    text: &mut [u8],
    scratch: &mut Scratch,
) -> Outcome {
    let Ok(Some(length)) = frames::read(input, sheet) else {
        return Outcome::End;
    };
    if same(input, list, &sheet[..length], stored, text, scratch) {
        Outcome::Same
    } else {
        Outcome::Different
    }
}

// The whole list, and the last line.
pub fn run<R: Read, W: Write>(input: &mut R, output: &mut W, list: List) -> io::Result<()> {
    let mut sheet = [0u8; 70000];
    let mut stored = [0u8; 70000];
    let mut text = [0u8; STATES_SIZE];
    let mut scratch = Scratch {
        words: [0u16; WORDS_SIZE],
        queue: [0u8; QUEUE_SIZE],
    };
    let mut tally = Tally {
        same: 0,
        different: 0,
        more: true,
    };
    for _ in 0..1000000 {
        let outcome = one(
            input,
            list,
            &mut sheet,
            &mut stored,
            &mut text,
            &mut scratch,
        );
        tally = counted(tally, outcome);
        if !tally.more {
            break;
        }
    }
    say(output, tally)
}
