// The choices that the papers name, document 01's refusals and answers, what two reports come to, what a seal comes to,
// and what writing a sheet comes to, as the code passes them.

#![tactic(auto)]

// The rule is a choice of two, with no third value.
#[derive(Clone, Copy)]
pub enum Rule {
    Old,
    House,
}

// The numbers of document 01's table of refusals, by the names of paper's conditions.
pub const TOO_SHORT: u8 = 1;

pub const NO_TEXT: u8 = 2;

pub const ILL_FORMED: u8 = 3;

pub const OUT_OF_PLACE: u8 = 4;

pub const BEYOND_LIMIT: u8 = 5;

pub const OUT_OF_ORDER: u8 = 6;

pub const REAL_ELSEWHERE: u8 = 7;

pub const TYPES_DIFFER: u8 = 8;

pub const STEP_TOO_MANY: u8 = 9;

// Why a sheet is turned away: the refusal's number, the line that it is given at, 0 where it is of no line, and the line's first field
// to show it, 0 where the number names none.
#[derive(Clone, Copy)]
pub struct Refusal {
    pub number: u8,
    pub line: usize,
    pub field: usize,
}

// What is said of a sheet: accepted or faulty, with the report's length; or refused.
#[derive(Clone, Copy)]
pub enum Answer {
    Accepted(usize),
    Faulty(usize),
    Refused(Refusal),
}

// Which of two reports: over the C interface and in what is written side 1 and side 2.
#[derive(Clone, Copy, PartialEq, Eq)]
pub enum Side {
    First,
    Second,
}

impl From<Side> for u8 {
    ghost use Rattle.std.specs.Prelude.{◌≡◌};
    ghost use Rattle.paper.specs.Comparison.{side_number};

    ghost from_gives = { λ side number. number ≡ side_number side };

    #[tactic(auto, unfolding(crate::specs::Comparison::side_number))]
    fn from(side: Side) -> u8 {
        match side {
            Side::First => 1,
            Side::Second => 2,
        }
    }
}

// What two reports come to: equal; they part, at a line whose first byte stands at a place of both; or one is malformed, the first
// or the second, and this is its first bad line.
#[derive(Clone, Copy)]
pub enum Compared {
    Equal,
    Parts { line: usize, place: usize },
    Malformed { side: Side, line: usize },
}

// What the seal of a text comes to: good; a wrong word; or there is no seal line at its end.
#[derive(Clone, Copy)]
pub enum Seal {
    Good,
    Wrong,
    None,
}

// Why a loaded form is not written: no sheet gives it, or the buffer has no room for its text.
#[derive(Clone, Copy, PartialEq, Eq)]
pub enum Unwritten {
    NoSheet,
    NoRoom,
}
