// The limits of document 01, the published sizes of the lent buffers, and where everything stands in the lent words: every place
// is computed from the limits, so that none is searched for. paper's Limits and specs/Layout.antt have the same names, and the
// contracts of the code that uses a constant tie it to them.

#![tactic(auto)]

// Registers, and so real names.
pub const MAX_REGS: usize = 32;

pub const MAX_SLOTS: usize = 32;

// Virtual names.
pub const MAX_VREGS: usize = 256;

pub const MAX_BLOCKS: usize = 128;

// Successors of a block.
pub const MAX_SUCCS: usize = 8;

// Uses of an operation, and defs.
pub const MAX_OPERANDS: usize = 8;

// The highest inst.
pub const MAX_INST: usize = 65535;

// Steps of a sheet.
pub const MAX_STEPS: usize = 1024;

// Bytes of a sheet.
pub const MAX_SHEET: usize = 65536;

// Bytes of a fault's line, of the header, and of an unreached block's line.
pub const LONGEST_FAULT_LINE: usize = 33;

pub const LONGEST_HEADER: usize = 16;

pub const LONGEST_UNREACHED_LINE: usize = 6;

// The report: a fault's line for each step, the header, and a line for each block.
pub const REPORT_SIZE: usize = MAX_STEPS * LONGEST_FAULT_LINE
    + LONGEST_HEADER
    + MAX_BLOCKS * LONGEST_UNREACHED_LINE;

// The seal's line, and a report with room for it.
pub const SEAL_SIZE: usize = 11;

pub const SEALED_SIZE: usize = REPORT_SIZE + SEAL_SIZE;

// The words: those of the layout below, and room for argument cells.
pub const WORDS_SIZE: usize = 32768;

// The queue: a byte for every visit that the old run can make.
pub const QUEUE_SIZE: usize = 1 + MAX_BLOCKS * (4 * (MAX_REGS + MAX_SLOTS));

// The header begins with the numbers of `F`.
pub const REGS_WORD: usize = 0;

pub const SLOTS_WORD: usize = 1;

pub const VREGS_WORD: usize = 2;

pub const BLOCKS_WORD: usize = 3;

pub const ENTRY_WORD: usize = 4;

// How many `B` lines have been read.
pub const OPENED_WORD: usize = 5;

// How many steps have been read.
pub const STEPS_WORD: usize = 6;

// The least number that the next `T` may have.
pub const LEAST_TYPED_WORD: usize = 7;

// 1 where the `F` has been read.
pub const BEGUN_WORD: usize = 8;

pub const HEADER_WORDS: usize = 16;

// A word for each virtual name: 1 where `T` lists it.
pub const TYPED_BASE: usize = HEADER_WORDS;

pub const TYPED_WORDS: usize = MAX_VREGS;

// Each block's words, of which the first is the number of its first step.
pub const BLOCK_BASE: usize = TYPED_BASE + TYPED_WORDS;

// How many steps the block has.
pub const STEP_TOTAL_WORD: usize = 1;

// How many successors it has.
pub const SUCC_TOTAL_WORD: usize = 2;

// Its successors, to the end of its words.
pub const SUCCS_FROM: usize = 3;

pub const BLOCK_WORDS: usize = SUCCS_FROM + MAX_SUCCS;

// Each step's words, as `steps` packs them.
pub const STEP_BASE: usize = BLOCK_BASE + MAX_BLOCKS * BLOCK_WORDS;

pub const STEP_WORDS: usize = 4;

// Each step's operands: its uses, and from DEFS_FROM on its defs.
pub const OPERAND_BASE: usize = STEP_BASE + MAX_STEPS * STEP_WORDS;

pub const DEFS_FROM: usize = MAX_OPERANDS;

pub const OPERAND_WORDS: usize = DEFS_FROM + MAX_OPERANDS;

// Each block's state: a row of cells for the registers, and one for the slots.
pub const STATE_BASE: usize = OPERAND_BASE + MAX_STEPS * OPERAND_WORDS;

pub const ROW_WORDS: usize = MAX_REGS;

pub const STATE_WORDS: usize = 2 * ROW_WORDS;

// Each block's mark: 0 where it is unvisited.
pub const MARK_BASE: usize = STATE_BASE + MAX_BLOCKS * STATE_WORDS;
