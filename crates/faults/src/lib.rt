// Finding a sheet's faults, missing allocations first, then what the checks find, and having `report` write a line for each, and for
// each block that no walk comes to.

#![tactic(auto)]

ghost use Rattle.std.specs.Prelude.{◌≡◌, Some, true, [], ◌∷◌, map, ◌+◌, ◌*◌, ◌≤◌, ◌<◌, length, get_or};
ghost use Rattle.lists.specs.Sets.{Wrote};
ghost use Rattle.paper.specs.Sheet.{steps_of};
ghost use Rattle.paper.specs.Limits.{max_blocks, max_operands, max_steps, longest_fault_line, longest_unreached_line, report_size};
ghost use Rattle.paper.specs.Report.{block_faults, fault_entry, unreached_entry, block_entries, find_errors, unallocated, missing_from, entries, lines_text};
ghost use Rattle.layout.specs.Layout.{blocks_word, run_words};
ghost use Rattle.loaded.specs.Actions.{operand_of, operands};
ghost use Rattle.steps.specs.Faults.{error_fault, fault_of, some_in};
ghost use Rattle.loaded.specs.Loaded.{step_total, sheet_of, Loaded};
ghost use Rattle.report.specs.Lines.{PositionWithin};
ghost use Rattle.faults.specs.Errors.{fields_at, FieldsOf, ErrorWithin, line_at, names_at};
ghost use Rattle.faults.specs.Passes.{AfterPass};
ghost use Rattle.faults.specs.Missing.{MissingIs, MissingOf};
ghost use Rattle.faults.specs.Reported.{Checkable, unmarked_lines, Reported};

use layout::{DEFS_FROM, MARK_BASE, STATE_BASE, STATE_WORDS};
use loaded::{Action, NO_REGISTER, REGISTER};
use paper::{Answer, Rule};
use report::{FaultFields, Field, Position};
use steps::CheckerError;

// The first step that has an operand with no allocation: its block, its place there, and its number in the sheet.
#[derive(Clone, Copy)]
pub struct Missing {
    pub block: usize,
    pub place: usize,
    pub k: usize,
}

// The fields of a fault at a register or slot, by the names that are there.
fn fault_fields(
    kind: u32,
    location: Field,
    expected: Option<u16>,
    actual: Option<u16>,
) -> FaultFields
    ensures { result ≡ fields_at kind location expected actual }
{
    FaultFields {
        kind,
        location: Some(location),
        expected: expected.map(Field::Named),
        actual: actual.map(Field::Named),
    }
}

// The kind and the fields of what a check finds.
fn fields_of(error: CheckerError) -> FaultFields
    requires { ErrorWithin error }
    ensures { FieldsOf (error_fault error) result }
{
    match error {
        CheckerError::UnknownValueInReg { reg } => {
            fault_fields(2, Field::Register(reg as u32), None, None)
        }
        CheckerError::IncorrectValueInReg {
            reg,
            expected,
            actual,
        } => fault_fields(3, Field::Register(reg as u32), Some(expected), Some(actual)),
        CheckerError::UnknownValueInSlot { slot, expected } => {
            fault_fields(4, Field::Slot(slot as u32), Some(expected), None)
        }
        CheckerError::IncorrectValueInSlot {
            slot,
            expected,
            actual,
        } => fault_fields(5, Field::Slot(slot as u32), Some(expected), Some(actual)),
        CheckerError::StackMapSpecifiesNonRefSlot { slot } => {
            fault_fields(6, Field::Slot(slot as u32), None, None)
        }
        CheckerError::StackMapSpecifiesUndefinedSlot { slot } => {
            fault_fields(7, Field::Slot(slot as u32), None, None)
        }
    }
}

// A pass over the blocks: what it does with the lines that it is told, one after the other.
trait Lines {
    ghost use Rattle.std.specs.Prelude.{List, ℕ};
    ghost use Rattle.std.proofs.Math.Option.{some};
    ghost use Rattle.paper.specs.Report.{Entry};
    ghost use Rattle.faults.specs.Passes.{PassLaws};

    // From the first state to the second it was told the lines of the list.
    ghost told: { List Entry → Self → Self → Type 0 };

    // How much they took, of how much there is.
    ghost taken: { Self → ℕ };

    ghost size: { Self → ℕ };

    fn fault(&mut self, position: Position, error: CheckerError)
        requires { PositionWithin position × ErrorWithin error × (taken self.old + longest_fault_line ≤ size self.old) }
        ensures { AfterPass told taken size (line_at position (some (error_fault error))) longest_fault_line self.old self.new };

    fn unreached(&mut self, block: usize)
        requires { (block < max_blocks) × (taken self.old + longest_unreached_line ≤ size self.old) }
        ensures { AfterPass told taken size (unreached_entry block ∷ []) longest_unreached_line self.old self.new };

    ghost laws: { PassLaws told };
}

// The pass that counts the faults.
#[derive(Drop)]
struct Counted {
    faults: usize,
}

impl Lines for Counted {
    ghost use Rattle.faults.specs.Passes.{counted_told, counted_laws};

    ghost told = { counted_told (λ s. s.faults) };

    ghost taken = { λ s. s.faults };

    ghost size = { λ s. report_size };

    ghost laws = { counted_laws (λ s. s.faults) };

    fn fault(&mut self, _position: Position, _error: CheckerError) {
        self.faults += 1;
    }

    fn unreached(&mut self, _block: usize) {}
}

// The pass that writes every line, each behind the text so far.
#[derive(Drop)]
struct Written<'a> {
    report: &'a mut [u8],
    at: usize,
}

impl<'a> Lines for Written<'a> {
    ghost use Rattle.faults.specs.Passes.{written_told, written_laws};

    ghost told = { written_told (λ s. s.report.ghost_name) (λ s. s.report.now) (λ s. s.at) };

    ghost taken = { λ s. s.at };

    ghost size = { λ s. length s.report.now };

    ghost laws = { written_laws (λ s. s.report.ghost_name) (λ s. s.report.now) (λ s. s.at) };

    fn fault(&mut self, position: Position, error: CheckerError) {
        self.at = report::write_line(self.report, self.at, position, fields_of(error));
    }

    fn unreached(&mut self, block: usize) {
        self.at = report::write_unreached(self.report, self.at, block);
    }
}

// How many of n operands from `from` on have no allocation.
fn count_missing(words: &[u16], from: usize, n: usize) -> usize
    requires { from + n ≤ length words.now }
    ensures { (result ≡ length (unallocated (operands from n words.now))) × (result ≤ n) }
{
    words[from..from + n]
        .iter()
        .filter(|&&word| word / REGISTER == NO_REGISTER)
        .count()
}

// An operand's line, where it has no allocation.
fn write_operand(report: &mut [u8], at: usize, position: Position, operand: u16) -> usize
    requires { PositionWithin position × (at + longest_fault_line ≤ length report.old) }
    ensures { Wrote report.old at (lines_text (names_at position (unallocated (operand_of operand ∷ [])))) report.new result × (result ≤ at + longest_fault_line) }
{
    if operand / REGISTER != NO_REGISTER {
        return at;
    }
    let fault = FaultFields {
        kind: 1,
        location: None,
        expected: Some(Field::Named(operand)),
        actual: None,
    };
    report::write_line(report, at, position, fault)
}

// A line for each of n operands from `from` on that has no allocation.
fn write_names(
    words: &[u16],
    from: usize,
    n: usize,
    report: &mut [u8],
    at: usize,
    position: Position,
) -> usize
    requires { (from + n ≤ length words.now) × PositionWithin position × (at + longest_fault_line * n ≤ length report.old) }
    ensures { Wrote report.old at (lines_text (names_at position (unallocated (operands from n words.now)))) report.new result × (result ≤ at + longest_fault_line * n) }
{
    let mut next = at;
    for &operand in &words[from..from + n] {
        next = write_operand(report, next, position, operand);
    }
    next
}

// A report of the operands with no allocation among n from `from` on.
fn write_missing_among(
    rule: Rule,
    words: &[u16],
    from: usize,
    n: usize,
    report: &mut [u8],
    position: Position,
) -> Answer
    requires { (from + n ≤ length words.now) × (n ≤ max_operands) × PositionWithin position × (report_size ≤ length report.old) × (some_in (unallocated (operands from n words.now)) ≡ true) }
    ensures { Reported rule (names_at position (unallocated (operands from n words.now))) report.old result report.new }
{
    let missing = count_missing(words, from, n);
    let next = report::write_header(report, 0, rule, missing);
    Answer::Faulty(write_names(words, from, n, report, next, position))
}

// The report of a sheet whose first step that has an operand with no allocation is the k-th: all its missing uses in order, or,
// when none is missing, all its missing defs. Only an operation has operands.
pub fn write_missing(rule: Rule, words: &[u16], report: &mut [u8], missing: Missing) -> Answer
    requires { Loaded words.now × MissingOf words.now (Some missing) × (report_size ≤ length report.old) }
    ensures { Reported rule (entries rule (sheet_of words.now)) report.old result report.new }
{
    let Missing { block, place, k } = missing;
    let Action::Operation {
        inst,
        at,
        uses,
        defs,
    } = loaded::action_at(words, k)
    else {
        return Answer::Accepted(0);
    };
    let position = Position { block, place, inst };
    if steps::missing_among(words, at, uses) {
        return write_missing_among(rule, words, at, uses, report, position);
    }
    write_missing_among(rule, words, at + DEFS_FROM, defs, report, position)
}

// The first step of a block that has an operand with no allocation.
fn find_in_block(words: &[u16], block: usize) -> Option<Missing>
    requires { Loaded words.now × (block < get_or words.now blocks_word 0) }
    ensures { MissingIs words.now (missing_from block 0 (steps_of (sheet_of words.now) block)) result }
{
    let first = loaded::first_step(words, block);
    let count = loaded::step_total(words, block);
    for place in 0..count {
        let k = first + place;
        let action = loaded::action_at(words, k);
        if steps::missing(words, action) {
            return Some(Missing { block, place, k });
        }
    }
    None
}

// The first step of the sheet that has an operand with no allocation.
pub fn find_missing(words: &[u16]) -> Option<Missing>
    requires { Loaded words.now }
    ensures { MissingOf words.now result }
{
    let count = loaded::blocks(words);
    for block in 0..count {
        if let Some(missing) = find_in_block(words, block) {
            return Some(missing);
        }
    }
    None
}

// A block's steps, each checked in the state before it.
fn check_block<L: Lines>(lines: &mut L, rule: Rule, words: &[u16], block: usize)
    requires { Checkable rule words.now × (block < get_or words.now blocks_word 0) × (L.taken lines.old + longest_fault_line * step_total words.now block ≤ L.size lines.old) }
    ensures { AfterPass L.told L.taken L.size (map fault_entry (block_faults rule (sheet_of words.now) block)) (longest_fault_line * step_total words.now block) lines.old lines.new }
{
    let first = loaded::first_step(words, block);
    let count = loaded::step_total(words, block);
    let mut t = cells::load(words, STATE_BASE + block * STATE_WORDS);
    for place in 0..count {
        let action = loaded::action_at(words, first + place);
        if let Err(error) = steps::check(words, t, action) {
            let inst = steps::inst_of(action);
            lines.fault(Position { block, place, inst }, error);
        }
        steps::update(words, rule, &mut t, action);
    }
}

// A block's lines: one of its own where it has no mark, else those of its faults.
fn block_lines<L: Lines>(lines: &mut L, rule: Rule, words: &[u16], block: usize)
    requires { Checkable rule words.now × (block < get_or words.now blocks_word 0) × (L.taken lines.old + longest_fault_line * step_total words.now block + longest_unreached_line ≤ L.size lines.old) }
    ensures { AfterPass L.told L.taken L.size (block_entries rule (sheet_of words.now) block) (longest_fault_line * step_total words.now block + longest_unreached_line) lines.old lines.new }
{
    if words[MARK_BASE + block] == 0 {
        lines.unreached(block);
    } else {
        check_block(lines, rule, words, block);
    }
}

// Every block's lines.
fn find_errors<L: Lines>(lines: &mut L, rule: Rule, words: &[u16])
    requires { Checkable rule words.now × (L.taken lines.old + longest_fault_line * max_steps + longest_unreached_line * max_blocks ≤ L.size lines.old) }
    ensures { AfterPass L.told L.taken L.size (find_errors rule (sheet_of words.now)) (longest_fault_line * max_steps + longest_unreached_line * max_blocks) lines.old lines.new }
{
    for block in 0..loaded::blocks(words) {
        block_lines(lines, rule, words, block);
    }
}

// The lines of the blocks without a mark: all lines of a sheet without a fault, whose steps are not looked at again.
fn write_unmarked(words: &[u16], report: &mut [u8], at: usize) -> usize
    requires { Loaded words.now × (run_words ≤ length words.now) × (at + longest_unreached_line * max_blocks ≤ length report.old) }
    ensures { Wrote report.old at (lines_text (unmarked_lines words.now)) report.new result × (result ≤ at + longest_unreached_line * max_blocks) }
{
    let total = loaded::blocks(words);
    let mut next = at;
    for block in 0..total {
        if words[MARK_BASE + block] == 0 {
            next = report::write_unreached(report, next, block);
        }
    }
    next
}

// The report of a sheet that was analysed: its faults are counted, and, where there are some, all lines written behind the header;
// else those of unreached blocks.
pub fn write_errors(rule: Rule, words: &[u16], report: &mut [u8]) -> Answer
    requires { Checkable rule words.now × (report_size ≤ length report.old) }
    ensures { Reported rule (entries rule (sheet_of words.now)) report.old result report.new }
{
    let mut counted = Counted { faults: 0 };
    find_errors(&mut counted, rule, words);
    let count = counted.faults;
    let next = report::write_header(report, 0, rule, count);
    if count == 0 {
        return Answer::Accepted(write_unmarked(words, report, next));
    }
    let mut written = Written { report, at: next };
    find_errors(&mut written, rule, words);
    Answer::Faulty(written.at)
}
