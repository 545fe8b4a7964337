// The first field of a bad line that shows its refusal. It is looked for behind the refusal, over the line's bytes, so that good
// lines pay nothing for it.

#![tactic(auto)]

ghost use Rattle.std.specs.Prelude.{◌≡◌, not, List};
ghost use Rattle.paper.specs.Text.{fields};
ghost use Rattle.paper.specs.Sheet.{Operand, Sheet};
ghost use Rattle.paper.specs.Refusals.{numbers_passing, function_passing, typed_passing, block_passing, pair_passing, change_passing, operation_passing, safepoint_passing, names_field, field_shown, field_of, any};
ghost use Rattle.fields.specs.Fields.{line_at, fields_behind};
ghost use Rattle.records.specs.Records.{Behind, name_of_code, register_of_code, Counted};
ghost use Rattle.records.specs.Parts.{counted, operand_of_codes};
ghost use Rattle.columns.specs.Columns.{Opening, NumberPassing, NamePassing, Earlier, OperandName, register_test, OperandRegister, GroupPassing, shares};

use layout::MAX_SUCCS;
use loaded::Counts;
use paper::{BEYOND_LIMIT, ILL_FORMED, OUT_OF_ORDER, REAL_ELSEWHERE, TYPES_DIFFER};
use records::NO_ALLOCATION;

// One more than the largest value of a field.
const REGS_END: u32 = layout::MAX_REGS as u32 + 1;

const SLOTS_END: u32 = layout::MAX_SLOTS as u32 + 1;

const VREGS_END: u32 = layout::MAX_VREGS as u32 + 1;

const BLOCKS_END: u32 = layout::MAX_BLOCKS as u32 + 1;

const INST_END: u32 = layout::MAX_INST as u32 + 1;

const OPERANDS_END: u32 = layout::MAX_OPERANDS as u32 + 1;

// A search in a sheet for the field that shows a refusal: the refusal's number, and what values are held against.
#[derive(Clone, Copy)]
struct Search<'a> {
    sheet: &'a [u8],
    number: u8,
    counts: Counts,
}

// A name or a register in one number, as it is held against those of earlier operands.
#[derive(Clone, Copy)]
pub enum Code {
    Name(u32),
    Register(u32),
}

// A group of operands that passes: how many fields, and the place behind them.
#[derive(Clone, Copy)]
pub struct Group {
    pub count: usize,
    pub next: usize,
}

// Has an operand this name, or this register?
fn is_shared(code: Code, name: u32, register: u32) -> bool
    ensures { result ≡ shares code (operand_of_codes name register) }
{
    match code {
        Code::Name(sought) => name == sought,
        Code::Register(sought) => (sought < NO_ALLOCATION) & (register == sought),
    }
}

// Does a refusal of this number name a field?
fn names_field(number: u8) -> bool
    ensures { result ≡ names_field number }
{
    (number == ILL_FORMED) | ((BEYOND_LIMIT <= number) & (number <= TYPES_DIFFER))
}

impl<'a> Search<'a> {
    // The next field as a number that passes: under refusal 5 it is below its limit.
    fn passing_number(self, at: usize, limit: u32) -> Option<(u32, usize)>
        requires { Behind self.sheet.now at }
        ensures { NumberPassing self.entry.number limit self.entry.sheet.now at result }
    {
        let (v, next) = records::number_behind(self.sheet, at)?;
        if (self.number == BEYOND_LIMIT) & (limit <= v) {
            return None;
        }
        Some((v, next))
    }

    // The next field as a name that passes, in one number.
    fn passing_name(self, at: usize) -> Option<(u32, usize)>
        requires { Behind self.sheet.now at }
        ensures { NamePassing self.entry.number (counted self.entry.counts) self.entry.sheet.now at result }
    {
        let (name, next) = records::name_behind(self.sheet, at)?;
        if (self.number == BEYOND_LIMIT) & records::name_beyond(name, self.counts) {
            return None;
        }
        Some((name, next))
    }

    // How many of all that is left of a line, one behind the other, are numbers that pass.
    fn passing_numbers(self, at: usize, limit: u32) -> usize
        requires { Behind self.sheet.now at }
        ensures { result ≡ numbers_passing self.entry.number limit 0 (fields_behind self.entry.sheet.now at) }
    {
        let mut least: u32 = 0;
        let mut count: usize = 0;
        let mut i = at;
        while self.sheet[i] != b'\n' {
            let Some((v, next)) = self.passing_number(i, limit) else {
                return count;
            };
            if (self.number == OUT_OF_ORDER) & (v < least) {
                return count;
            }
            least = v + 1;
            count += 1;
            i = next;
        }
        count
    }

    // `F regs slots vregs blocks entry`: how many fields pass.
    fn passing_function(self, at: usize) -> usize
        requires { Behind self.sheet.now at }
        ensures { result ≡ function_passing self.entry.number (fields_behind self.entry.sheet.now at) }
    {
        let Some((_, a)) = self.passing_number(at, REGS_END) else {
            return 0;
        };
        let Some((_, b)) = self.passing_number(a, SLOTS_END) else {
            return 1;
        };
        let Some((_, c)) = self.passing_number(b, VREGS_END) else {
            return 2;
        };
        let Some((blocks, d)) = self.passing_number(c, BLOCKS_END) else {
            return 3;
        };
        if (self.number == BEYOND_LIMIT) & (blocks == 0) {
            return 3;
        }
        let Some(_) = self.passing_number(d, blocks) else {
            return 4;
        };
        5
    }

    // `T n`.
    fn passing_typed(self, at: usize) -> usize
        requires { Behind self.sheet.now at }
        ensures { result ≡ typed_passing self.entry.number (counted self.entry.counts) (fields_behind self.entry.sheet.now at) }
    {
        let Some(_) = self.passing_number(at, self.counts.vregs) else {
            return 0;
        };
        if self.number == OUT_OF_ORDER { 0 } else { 1 }
    }

    // `B succ..`: a ninth successor is a field too many.
    fn passing_block(self, at: usize) -> usize
        requires { Behind self.sheet.now at }
        ensures { result ≡ block_passing self.entry.number (counted self.entry.counts) (fields_behind self.entry.sheet.now at) }
    {
        let count = self.passing_numbers(at, self.counts.blocks);
        if MAX_SUCCS < count { MAX_SUCCS } else { count }
    }

    // `S slot reg`, `L reg slot` and `M into from`, each with its two limits.
    fn passing_pair(self, at: usize, first: u32, second: u32) -> usize
        requires { Behind self.sheet.now at }
        ensures { result ≡ pair_passing self.entry.number first second (fields_behind self.entry.sheet.now at) }
    {
        let Some((_, middle)) = self.passing_number(at, first) else {
            return 0;
        };
        let Some(_) = self.passing_number(middle, second) else {
            return 1;
        };
        2
    }

    // `C inst slot from to`: 8 is shown by the later of the two names.
    fn passing_change(self, at: usize) -> usize
        requires { Behind self.sheet.now at }
        ensures { result ≡ change_passing self.entry.number (counted self.entry.counts) (fields_behind self.entry.sheet.now at) }
    {
        let Some((_, a)) = self.passing_number(at, INST_END) else {
            return 0;
        };
        let Some((_, b)) = self.passing_number(a, self.counts.slots) else {
            return 1;
        };
        let Some((_, c)) = self.passing_name(b) else {
            return 2;
        };
        let Some(_) = self.passing_name(c) else {
            return 3;
        };
        if self.number == TYPES_DIFFER { 3 } else { 4 }
    }

    // Has one of the first `count` operands behind `at` this name, or this register?
    fn is_earlier(self, at: usize, count: usize, code: Code) -> bool
        requires { Behind self.sheet.now at }
        ensures { (us : List Operand) → Earlier self.entry.sheet.now at count us → result ≡ any (shares code) us }
    {
        let mut i = at;
        for _ in 0..count {
            let Some((name, middle)) = records::name_behind(self.sheet, i) else {
                return false;
            };
            let Some((register, next)) = records::allocation_behind(self.sheet, middle) else {
                return false;
            };
            if is_shared(code, name, register) {
                return true;
            }
            i = next;
        }
        false
    }

    // The name of an operand behind `count` others, which stand from `first` on, in one number.
    fn operand_name(self, at: usize, first: usize, count: usize) -> Option<(u32, usize)>
        requires { Behind self.sheet.now at × Behind self.sheet.now first }
        ensures { (us : List Operand) → Earlier self.entry.sheet.now first count us → OperandName self.entry.number self.entry.counts us self.entry.sheet.now at result }
    {
        let (name, next) = self.passing_name(at)?;
        if (self.number == OUT_OF_ORDER) && self.is_earlier(first, count, Code::Name(name)) {
            return None;
        }
        Some((name, next))
    }

    // Does the register of an operand of that name show the refusal?
    fn register_shows(
        self,
        first: usize,
        count: usize,
        name: u32,
        register: u32,
        defs: bool,
    ) -> bool
        requires { Behind self.sheet.now first }
        ensures { (us : List Operand) → Earlier self.entry.sheet.now first count us → result ≡ not (register_test self.entry.number self.entry.counts defs us (name_of_code name) (register_of_code register)) }
    {
        if self.number == BEYOND_LIMIT {
            return (register < NO_ALLOCATION) & (self.counts.regs <= register);
        }
        if self.number == REAL_ELSEWHERE {
            return records::is_elsewhere(name, register);
        }
        if (self.number == OUT_OF_ORDER) & defs {
            return self.is_earlier(first, count, Code::Register(register));
        }
        false
    }

    // The register of an operand of that name, in one number.
    fn operand_register(
        self,
        at: usize,
        first: usize,
        count: usize,
        name: u32,
        defs: bool,
    ) -> Option<(u32, usize)>
        requires { Behind self.sheet.now at × Behind self.sheet.now first }
        ensures { (us : List Operand) → Earlier self.entry.sheet.now first count us → OperandRegister self.entry.number self.entry.counts defs us name self.entry.sheet.now at result }
    {
        let (register, next) = records::allocation_behind(self.sheet, at)?;
        if self.register_shows(first, count, name, register, defs) {
            return None;
        }
        Some((register, next))
    }

    // `n (name reg)*n`: how many fields pass, all of them or those before the one that shows the refusal.
    fn passing_group(self, at: usize, defs: bool) -> Result<Group, usize>
        requires { Behind self.sheet.now at }
        ensures { GroupPassing self.entry.number self.entry.counts defs self.entry.sheet.now at result }
    {
        let Some((n, first)) = self.passing_number(at, OPERANDS_END) else {
            return Err(0);
        };
        let mut i = first;
        for count in 0..n as usize {
            let Some((name, middle)) = self.operand_name(i, first, count) else {
                return Err(1 + 2 * count);
            };
            let Some((_, next)) = self.operand_register(middle, first, count, name, defs) else {
                return Err(2 + 2 * count);
            };
            i = next;
        }
        Ok(Group {
            count: 1 + 2 * n as usize,
            next: i,
        })
    }

    // `O inst n (name reg)*n m (name reg)*m`.
    fn passing_operation(self, at: usize) -> usize
        requires { Behind self.sheet.now at }
        ensures { result ≡ operation_passing self.entry.number (counted self.entry.counts) (fields_behind self.entry.sheet.now at) }
    {
        let Some((_, first)) = self.passing_number(at, INST_END) else {
            return 0;
        };
        let uses = match self.passing_group(first, false) {
            Ok(uses) => uses,
            Err(shown) => return 1 + shown,
        };
        match self.passing_group(uses.next, true) {
            Ok(defs) => 1 + uses.count + defs.count,
            Err(shown) => 1 + uses.count + shown,
        }
    }

    // `P inst slot..`.
    #[tactic(auto, using(crate::specs::Bounds::few_pass))]
    fn passing_safepoint(self, at: usize) -> usize
        requires { Behind self.sheet.now at }
        ensures { result ≡ safepoint_passing self.entry.number (counted self.entry.counts) (fields_behind self.entry.sheet.now at) }
    {
        let Some((_, first)) = self.passing_number(at, INST_END) else {
            return 0;
        };
        1 + self.passing_numbers(first, self.counts.slots)
    }

    // The first field of the line at `at`, of that letter, that does not pass, the letter being 1; an unknown letter does not.
    #[tactic(auto, using(crate::specs::Bounds::few_pass))]
    fn shown_field(self, at: usize, letter: u8) -> usize
        requires { Opening self.sheet.now at letter }
        ensures { (S : Sheet) → Counted S self.entry.counts → result ≡ field_shown self.entry.number S (fields (line_at self.entry.sheet.now at)) }
    {
        let behind = at + 1;
        let regs = self.counts.regs;
        let slots = self.counts.slots;
        match letter {
            b'F' => 2 + self.passing_function(behind),
            b'T' => 2 + self.passing_typed(behind),
            b'B' => 2 + self.passing_block(behind),
            b'S' => 2 + self.passing_pair(behind, slots, regs),
            b'L' => 2 + self.passing_pair(behind, regs, slots),
            b'M' => 2 + self.passing_pair(behind, regs, regs),
            b'C' => 2 + self.passing_change(behind),
            b'O' => 2 + self.passing_operation(behind),
            b'P' => 2 + self.passing_safepoint(behind),
            _ => 1,
        }
    }
}

// The first field of the line at `at`, of that letter, to show the refusal of this number; 0 where the number names none.
pub fn field(s: &[u8], at: usize, letter: u8, number: u8, counts: Counts) -> usize
    requires { Opening s.now at letter }
    ensures { (S : Sheet) → Counted S counts → result ≡ field_of number S (fields (line_at s.now at)) }
{
    if names_field(number) {
        let search = Search {
            sheet: s,
            number,
            counts,
        };
        search.shown_field(at, letter)
    } else {
        0
    }
}
