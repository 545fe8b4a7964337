// The loaded words: how a sheet stands in them, one step, one block and one header at a time, and what other crates read of them.
// `sheet` fills them line by line; the runs, the checks and the entry states read them here.

#![tactic(auto)]

ghost use Rattle.std.specs.Prelude.{◌≡◌, ℕ, ◌+◌, ◌*◌, ◌≤◌, ◌<◌, length, get_or, take};
ghost use Rattle.lists.specs.Kept.{Kept};
ghost use Rattle.lists.specs.Over.{over};
ghost use Rattle.paper.specs.Sheet.{operation};
ghost use Rattle.paper.specs.Limits.{max_blocks, max_succs, max_steps};
ghost use Rattle.paper.specs.Refusals.{function_record, typed_record, block_record, step_record};
ghost use Rattle.layout.specs.Layout.{regs_word, vregs_word, blocks_word, entry_word, opened_word, steps_word, least_typed_word, step_base, step_words, defs_from, operand_words, succ_base, all_words};
ghost use Rattle.cells.specs.States.{row_counts};
ghost use Rattle.loaded.specs.Actions.{rows_of, operands, step_of, action_at, tag_of, packed, Packs};
ghost use Rattle.loaded.specs.Loaded.{first_step, step_total, succ_total, counts_in, counts_of, reached_of, sheet_of};
ghost use Rattle.loaded.specs.Filling.{Blank, Begun, FunctionWithin, BlockWithin, GroupWithin, StepFits, RecordStored};

use cells::RowCounts;
use layout::{
    BEGUN_WORD, BLOCK_BASE, BLOCK_WORDS, BLOCKS_WORD, ENTRY_WORD, LEAST_TYPED_WORD, MAX_SUCCS,
    OPENED_WORD, OPERAND_BASE, OPERAND_WORDS, REGS_WORD, SLOTS_WORD, STEP_BASE, STEP_TOTAL_WORD,
    STEP_WORDS, STEPS_WORD, SUCC_TOTAL_WORD, SUCCS_FROM, TYPED_BASE, VREGS_WORD,
};

// The register of an operand that has no allocation.
pub const NO_REGISTER: u16 = 63;

// Where an operand's register stands, before its mark and its name.
pub const REGISTER: u16 = 1024;

// A copy of one cell, by the rows that it goes between: a slot from a register, a register from a slot, a register from a register.
// Its number is the tag of its step.
#[derive(Clone, Copy)]
pub enum CopyKind {
    Spill,
    Reload,
    Move,
}

// The rows of a copy.
#[derive(Clone, Copy)]
pub struct CopyRows {
    pub into: usize,
    pub from: usize,
}

// A step. An operation's uses stand in the lent words from `at` on, its defs from `at + DEFS_FROM` on.
#[derive(Clone, Copy)]
pub enum Action {
    Copy {
        kind: CopyKind,
        into: usize,
        from: usize,
    },
    Change {
        inst: u16,
        slot: usize,
        from: u16,
        to: u16,
    },
    Operation {
        inst: u16,
        at: usize,
        uses: usize,
        defs: usize,
    },
    Safepoint {
        inst: u16,
        mask: u32,
    },
}

// `F`'s counts, which the lines behind it are held against.
#[derive(Clone, Copy)]
pub struct Counts {
    pub regs: u32,
    pub slots: u32,
    pub vregs: u32,
    pub blocks: u32,
}

// How far reading has come: whether the `F` has been read, how many blocks and steps, and the least number of the next `T`.
#[derive(Clone, Copy)]
pub struct Reached {
    pub begun: bool,
    pub opened: usize,
    pub steps: usize,
    pub least: u32,
}

// A mask from its two halves.
fn mask_of(low: u16, high: u16) -> u32
    ensures { result ≡ low + high * 65536 }
{
    low as u32 + high as u32 * 65536
}

// The k-th step of the sheet. No sheet has another tag than the six: it is read as a move between registers that no sheet has.
pub fn action_at(words: &[u16], k: usize) -> Action
    requires { (k < max_steps) × (all_words ≤ length words.now) }
    ensures { result ≡ action_at words.now k }
{
    let at = STEP_BASE + k * STEP_WORDS;
    let w = words[at];
    let inst = words[at + 1];
    let x = words[at + 2];
    let y = words[at + 3];
    let tag = w % 8;
    let a = (w / 8 % 64) as usize;
    let b = (w / 512 % 64) as usize;
    // Numbers, because the words are fixed memory: a step's kind stands packed in three bits.
    match tag {
        0 => Action::Copy {
            kind: CopyKind::Spill,
            into: a,
            from: b,
        },
        1 => Action::Copy {
            kind: CopyKind::Reload,
            into: a,
            from: b,
        },
        2 => Action::Copy {
            kind: CopyKind::Move,
            into: a,
            from: b,
        },
        3 => Action::Change {
            inst,
            slot: a,
            from: x,
            to: y,
        },
        4 => Action::Operation {
            inst,
            at: OPERAND_BASE + k * OPERAND_WORDS,
            uses: a,
            defs: b,
        },
        5 => Action::Safepoint {
            inst,
            mask: mask_of(x, y),
        },
        _ => Action::Copy {
            kind: CopyKind::Move,
            into: NO_REGISTER as usize,
            from: NO_REGISTER as usize,
        },
    }
}

// The rows that a copy goes between.
pub fn rows_of(kind: CopyKind) -> CopyRows
    ensures { result ≡ rows_of kind }
{
    match kind {
        CopyKind::Spill => CopyRows { into: 1, from: 0 },
        CopyKind::Reload => CopyRows { into: 0, from: 1 },
        CopyKind::Move => CopyRows { into: 0, from: 0 },
    }
}

fn first_word(tag: usize, a: usize, b: usize) -> u16
    requires { (tag < 8) × (a < 64) × (b < 64) }
    ensures { result ≡ tag + a * 8 + b * 512 }
{
    (tag + a * 8 + b * 512) as u16
}

// The four words of a step.
fn packed(action: Action) -> [u16; STEP_WORDS]
    requires { (k : ℕ) × Packs k action }
    ensures { result ≡ packed action }
{
    match action {
        Action::Copy { kind, into, from } => [first_word(kind as usize, into, from), 0, 0, 0],
        Action::Change {
            inst,
            slot,
            from,
            to,
        } => [first_word(3, slot, 0), inst, from, to],
        Action::Operation {
            inst,
            uses,
            defs,
            ..
        } => [first_word(4, uses, defs), inst, 0, 0],
        Action::Safepoint { inst, mask } => [
            first_word(5, 0, 0),
            inst,
            (mask % 65536) as u16,
            (mask / 65536) as u16,
        ],
    }
}

// The k-th step of the sheet is written.
pub fn put_action(words: &mut [u16], k: usize, action: Action)
    requires { (k < max_steps) × (all_words ≤ length words.old) × Packs k action }
    ensures { (action_at words.new k ≡ action) × Kept (step_base + k * step_words) step_words words.old words.new }
{
    let p = packed(action);
    let at = STEP_BASE + k * STEP_WORDS;
    words[at..at + STEP_WORDS].copy_from_slice(&p);
}

fn word(words: &[u16], i: usize) -> usize
    requires { i < length words.now }
    ensures { (result ≡ get_or words.now i 0) × (result < 65536) }
{
    words[i] as usize
}

// The numbers of `F` but for the entry.
pub fn counts_of(words: &[u16]) -> Counts
    requires { all_words ≤ length words.now }
    ensures { result ≡ counts_of words.now }
{
    Counts {
        regs: word(words, REGS_WORD) as u32,
        slots: word(words, SLOTS_WORD) as u32,
        vregs: word(words, VREGS_WORD) as u32,
        blocks: word(words, BLOCKS_WORD) as u32,
    }
}

// How many cells each row of a state of the sheet has.
pub fn row_counts(words: &[u16]) -> RowCounts
    requires { all_words ≤ length words.now }
    ensures { row_counts result ≡ counts_in words.now }
{
    RowCounts {
        regs: word(words, REGS_WORD),
        slots: word(words, SLOTS_WORD),
    }
}

// The words of the header that say how far reading has come.
pub fn progress(words: &[u16]) -> Reached
    requires { all_words ≤ length words.now }
    ensures { result ≡ reached_of words.now }
{
    Reached {
        begun: words[BEGUN_WORD] != 0,
        opened: word(words, OPENED_WORD),
        steps: word(words, STEPS_WORD),
        least: word(words, LEAST_TYPED_WORD) as u32,
    }
}

pub fn blocks(words: &[u16]) -> usize
    requires { all_words ≤ length words.now }
    ensures { result ≡ get_or words.now blocks_word 0 }
{
    word(words, BLOCKS_WORD)
}

pub fn entry(words: &[u16]) -> usize
    requires { all_words ≤ length words.now }
    ensures { result ≡ get_or words.now entry_word 0 }
{
    word(words, ENTRY_WORD)
}

// The number of block b's first step.
pub fn first_step(words: &[u16], b: usize) -> usize
    requires { (all_words ≤ length words.now) × (b < max_blocks) }
    ensures { result ≡ first_step words.now b }
{
    word(words, BLOCK_BASE + b * BLOCK_WORDS)
}

pub fn step_total(words: &[u16], b: usize) -> usize
    requires { (all_words ≤ length words.now) × (b < max_blocks) }
    ensures { result ≡ step_total words.now b }
{
    word(words, BLOCK_BASE + b * BLOCK_WORDS + STEP_TOTAL_WORD)
}

pub fn succ_total(words: &[u16], b: usize) -> usize
    requires { (all_words ≤ length words.now) × (b < max_blocks) }
    ensures { result ≡ succ_total words.now b }
{
    word(words, BLOCK_BASE + b * BLOCK_WORDS + SUCC_TOTAL_WORD)
}

// Block b's i-th successor.
pub fn successor(words: &[u16], b: usize, i: usize) -> usize
    requires { (all_words ≤ length words.now) × (b < max_blocks) × (i < max_succs) }
    ensures { result ≡ get_or words.now (succ_base b + i) 0 }
{
    word(words, BLOCK_BASE + b * BLOCK_WORDS + SUCCS_FROM + i)
}

// `F`: the header, with no block, no step and no typed name.
pub fn store_function(words: &mut [u16], regs: u16, slots: u16, vregs: u16, blocks: u16, entry: u16)
    requires { Blank words.old × FunctionWithin regs slots vregs blocks entry }
    ensures { RecordStored words.old words.new (function_record regs slots vregs blocks entry) }
{
    words[REGS_WORD] = regs;
    words[SLOTS_WORD] = slots;
    words[VREGS_WORD] = vregs;
    words[BLOCKS_WORD] = blocks;
    words[ENTRY_WORD] = entry;
    words[OPENED_WORD] = 0;
    words[STEPS_WORD] = 0;
    words[LEAST_TYPED_WORD] = 0;
    words[BEGUN_WORD] = 1;
}

// `T`: the name's word, and the least number that the next may have.
pub fn add_typed(words: &mut [u16], n: usize)
    requires { Begun words.old × (get_or words.old opened_word 0 ≡ 0) × (n < get_or words.old vregs_word 0) × (get_or words.old least_typed_word 0 ≤ n) }
    ensures { RecordStored words.old words.new (typed_record n) }
{
    words[TYPED_BASE + n] = 1;
    words[LEAST_TYPED_WORD] = n as u16 + 1;
}

fn store_succs(words: &mut [u16], at: usize, succs: [u32; MAX_SUCCS], count: usize)
    requires { (at + count ≤ length words.old) × (count ≤ max_succs) × ((k : ℕ) → k < count → get_or succs k 0 < 65536) }
    ensures { words.new ≡ over at count (λ k x. get_or succs k 0) words.old }
{
    for (i, &s) in succs[..count].iter().enumerate() {
        words[at + i] = s as u16;
    }
}

// `B`: the next block, with no step yet.
pub fn add_block(words: &mut [u16], succs: [u32; MAX_SUCCS], count: usize)
    requires { Begun words.old × (get_or words.old opened_word 0 < get_or words.old blocks_word 0) × BlockWithin (get_or words.old blocks_word 0) count succs }
    ensures { RecordStored words.old words.new (block_record (take count succs)) }
{
    let b = words[OPENED_WORD];
    let at = BLOCK_BASE + b as usize * BLOCK_WORDS;
    words[at] = words[STEPS_WORD];
    words[at + STEP_TOTAL_WORD] = 0;
    words[at + SUCC_TOTAL_WORD] = count as u16;
    store_succs(words, at + SUCCS_FROM, succs, count);
    words[OPENED_WORD] = b + 1;
}

// A step more at the end of the last block.
pub fn add_step(words: &mut [u16], action: Action)
    requires { Begun words.old × (0 < get_or words.old opened_word 0) × (get_or words.old steps_word 0 < max_steps) × StepFits words.old action }
    ensures { RecordStored words.old words.new (step_record (step_of words.old action)) }
{
    let k = words[STEPS_WORD];
    let total = BLOCK_BASE + (words[OPENED_WORD] as usize - 1) * BLOCK_WORDS + STEP_TOTAL_WORD;
    put_action(words, k as usize, action);
    words[total] += 1;
    words[STEPS_WORD] = k + 1;
}

// The operands of the next step.
fn store_operands(words: &mut [u16], at: usize, operands: [u16; OPERAND_WORDS])
    requires { at + operand_words ≤ length words.old }
    ensures { words.new ≡ over at operand_words (λ k x. get_or operands k 0) words.old }
{
    words[at..at + OPERAND_WORDS].copy_from_slice(&operands);
}

// An operation more: its operands stand at its own place, its uses first, from DEFS_FROM on its defs.
pub fn add_operation(
    words: &mut [u16],
    inst: u16,
    row: [u16; OPERAND_WORDS],
    uses: usize,
    defs: usize,
)
    requires { Begun words.old × (0 < get_or words.old opened_word 0) × (get_or words.old steps_word 0 < max_steps) × GroupWithin (sheet_of words.old) (get_or words.old regs_word 0) 0 uses row × GroupWithin (sheet_of words.old) (get_or words.old regs_word 0) defs_from defs row }
    ensures { RecordStored words.old words.new (step_record (operation inst (operands 0 uses row) (operands defs_from defs row))) }
{
    let at = OPERAND_BASE + words[STEPS_WORD] as usize * OPERAND_WORDS;
    store_operands(words, at, row);
    add_step(
        words,
        Action::Operation {
            inst,
            at,
            uses,
            defs,
        },
    );
}
