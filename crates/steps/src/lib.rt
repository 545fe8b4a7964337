// A step's check and its effect under either rule, and whether it lacks an allocation.

#![tactic(auto)]

ghost use Rattle.std.specs.Prelude.{◌≡◌, Bool, List, ℕ, ◌+◌, ◌/◌, ◌≤◌, ◌<◌, length, get_or};
ghost use Rattle.lists.specs.Region.{region};
ghost use Rattle.lists.specs.Bits.{set_bits};
ghost use Rattle.paper.specs.Text.{Name};
ghost use Rattle.paper.specs.Sheet as sheet;
ghost use Rattle.paper.specs.Steps as paper;
ghost use Rattle.paper.specs.Report.{unallocated, missing_names, inst_of};
ghost use Rattle.paper.specs.Limits.{max_regs, max_slots};
ghost use Rattle.layout.specs.Layout.{row_widths};
ghost use Rattle.cells.specs.Packed.{name_of_word};
ghost use Rattle.cells.specs.States.{state_of, RowsFit};
ghost use Rattle.loaded.specs.Actions.{operands, step_of, steps_at, InRange, DefsMarked, RoomFor, Runnable, StepsMarked};
ghost use Rattle.steps.specs.Faults.{fault_of, some_in};
ghost use Rattle.steps.specs.Checks.{use_error, change_error, slot_error, first_error, use_in, slot_in};
ghost use Rattle.steps.specs.Defs.{define_word, define_words};

use cells::{KIND, KINDS, MARK, NAMED, NAMED_KIND, State};
use layout::{DEFS_FROM, ROW_WORDS};
use loaded::{Action, NO_REGISTER, REGISTER};
use paper::Rule;

// What is wrong with a step.
#[derive(Clone, Copy, Debug, PartialEq, Eq)]
pub enum CheckerError {
    UnknownValueInReg {
        reg: usize,
    },
    IncorrectValueInReg {
        reg: usize,
        expected: u16,
        actual: u16,
    },
    UnknownValueInSlot {
        slot: usize,
        expected: u16,
    },
    IncorrectValueInSlot {
        slot: usize,
        expected: u16,
        actual: u16,
    },
    StackMapSpecifiesNonRefSlot {
        slot: usize,
    },
    StackMapSpecifiesUndefinedSlot {
        slot: usize,
    },
}

// The inst of a step that can have a fault.
pub fn inst_of(action: Action) -> u16
    ensures { (words : List ℕ) → result ≡ inst_of (step_of words action) }
{
    match action {
        Action::Copy { .. } => 0,
        Action::Change { inst, .. } => inst,
        Action::Operation { inst, .. } => inst,
        Action::Safepoint { inst, .. } => inst,
    }
}

// Does one of n operands from `at` on have no allocation?
pub fn missing_among(words: &[u16], at: usize, n: usize) -> bool
    requires { at + n ≤ length words.now }
    ensures { result ≡ some_in (unallocated (operands at n words.now)) }
{
    words[at..at + n]
        .iter()
        .any(|&word| word / REGISTER == NO_REGISTER)
}

// Does a step have an operand with no allocation?
pub fn missing(words: &[u16], action: Action) -> bool
    requires { RoomFor action words.now }
    ensures { result ≡ some_in (missing_names (step_of words.now action)) }
{
    let Action::Operation { at, uses, defs, .. } = action else {
        return false;
    };
    missing_among(words, at, uses) || missing_among(words, at + DEFS_FROM, defs)
}

fn check_use(u: u16, w: u16) -> Result<(), CheckerError>
    ensures { result ≡ use_error u w }
{
    let reg = (u / REGISTER) as usize;
    if w / KIND % KINDS != NAMED_KIND {
        return Err(CheckerError::UnknownValueInReg { reg });
    }
    if w % MARK == u % MARK {
        Ok(())
    } else {
        Err(CheckerError::IncorrectValueInReg {
            reg,
            expected: u % MARK,
            actual: w % MARK,
        })
    }
}

fn check_change(slot: usize, from: u16, w: u16) -> Result<(), CheckerError>
    ensures { result ≡ change_error slot from w }
{
    if w / KIND % KINDS != NAMED_KIND {
        return Err(CheckerError::UnknownValueInSlot {
            slot,
            expected: from % MARK,
        });
    }
    if w % MARK == from % MARK {
        Ok(())
    } else {
        Err(CheckerError::IncorrectValueInSlot {
            slot,
            expected: from % MARK,
            actual: w % MARK,
        })
    }
}

fn check_slot(slot: usize, w: u16) -> Result<(), CheckerError>
    ensures { result ≡ slot_error slot w }
{
    if w / KIND % KINDS != NAMED_KIND {
        return Err(CheckerError::StackMapSpecifiesUndefinedSlot { slot });
    }
    if w / MARK % 2 == 1 {
        Ok(())
    } else {
        Err(CheckerError::StackMapSpecifiesNonRefSlot { slot })
    }
}

// The uses in order: the first that fails.
fn check_uses(
    words: &[u16],
    at: usize,
    n: usize,
    row: &[u16; ROW_WORDS],
) -> Result<(), CheckerError>
    requires { (at + n ≤ length words.now) × ((i : ℕ) → i < n → get_or words.now (at + i) 0 / 1024 < max_regs) }
    ensures { result ≡ first_error (use_in row.now) (region at n words.now) }
{
    for &u in &words[at..at + n] {
        let reg = (u / REGISTER) as usize;
        check_use(u, row[reg])?;
    }
    Ok(())
}

// The listed slots, lowest first: the first that fails. Document 01 names this form: a labelled break leaves the search over listed
// slots, and the loop yields the fault.
fn check_stackmap(row: &[u16; ROW_WORDS], mask: u32) -> Result<(), CheckerError>
    ensures { result ≡ first_error (slot_in row.now) (set_bits mask) }
{
    let mut left = mask;
    'search: loop {
        if left == 0 {
            break 'search Ok(());
        }
        let slot = left.trailing_zeros() as usize;
        if let Err(error) = check_slot(slot, row[slot]) {
            break 'search Err(error);
        }
        left = cells::without_lowest(left);
    }
}

// What is wrong with a step in a state.
pub fn check(words: &[u16], s: State, action: Action) -> Result<(), CheckerError>
    requires { InRange row_widths words.now action }
    ensures { (counts : List ℕ) → InRange counts words.now action → fault_of result ≡ paper.check (step_of words.now action) (state_of counts s) }
{
    match action {
        Action::Copy { .. } => Ok(()),
        Action::Change { slot, from, .. } => check_change(slot, from, s[1][slot]),
        Action::Operation { at, uses, .. } => check_uses(words, at, uses, &s[0]),
        Action::Safepoint { mask, .. } => check_stackmap(&s[1], mask),
    }
}

// A def: its register gets its name, which under the house rule stands nowhere else.
fn define(rule: Rule, s: &mut State, operand: u16)
    requires { operand / 1024 < max_regs }
    ensures { (counts : List ℕ) → RowsFit counts → state_of counts s.new ≡ define_word rule operand (state_of counts s.old) }
{
    match rule {
        Rule::Old => {}
        Rule::House => cells::overwrite(s, operand),
    }
    let reg = (operand / REGISTER) as usize;
    s[0][reg] = NAMED + operand % REGISTER;
}

// The defs in order.
fn define_all(words: &[u16], at: usize, n: usize, rule: Rule, s: &mut State)
    requires { (at + n ≤ length words.now) × ((i : ℕ) → i < n → get_or words.now (at + i) 0 / 1024 < max_regs) }
    ensures { (counts : List ℕ) → RowsFit counts → state_of counts s.new ≡ define_words rule (region at n words.now) (state_of counts s.old) }
{
    for &operand in &words[at..at + n] {
        define(rule, s, operand);
    }
}

// An ownership change.
fn change(rule: Rule, s: &mut State, slot: usize, from: u16, to: u16)
    requires { slot < max_slots }
    ensures { (counts : List ℕ) → RowsFit counts → slot < get_or counts 1 0 → (ref : Name → Bool) (inst : ℕ) → state_of counts s.new ≡ paper.effect rule ref (sheet.change inst slot (name_of_word from) (name_of_word to)) (state_of counts s.old) }
{
    match rule {
        Rule::Old => {
            s[1][slot] = cells::old_changed(to, s[1][slot]);
        }
        Rule::House => {
            let w = cells::house_changed(from, to, s[1][slot]);
            cells::overwrite(s, to);
            s[1][slot] = w;
        }
    }
}

// A step takes effect in the state that is lent.
pub fn update(words: &[u16], rule: Rule, s: &mut State, action: Action)
    requires { InRange row_widths words.now action }
    ensures { (counts : List ℕ) → RowsFit counts → InRange counts words.now action → (ref : Name → Bool) → DefsMarked ref words.now action → state_of counts s.new ≡ paper.effect rule ref (step_of words.now action) (state_of counts s.old) }
{
    match action {
        Action::Copy { kind, into, from } => {
            let rows = loaded::rows_of(kind);
            cells::copy(s, rows.into, into, rows.from, from)
        }
        Action::Change { slot, from, to, .. } => change(rule, s, slot, from, to),
        Action::Operation { at, defs, .. } => define_all(words, at + DEFS_FROM, defs, rule, s),
        Action::Safepoint { mask, .. } => cells::update_stackmap(rule, s, mask),
    }
}

// The steps of a block, one after the other.
pub fn effects(words: &[u16], rule: Rule, s: State, first: usize, count: usize) -> State
    requires { Runnable row_widths words.now first count }
    ensures { (counts : List ℕ) → Runnable counts words.now first count → (ref : Name → Bool) → StepsMarked ref words.now first count → state_of counts result ≡ paper.effects rule ref (steps_at words.now first count) (state_of counts s) }
{
    let mut t = s;
    for k in first..first + count {
        let action = loaded::action_at(words, k);
        update(words, rule, &mut t, action);
    }
    t
}
