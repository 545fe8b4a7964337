// The entry states of a sheet as text, for comparison: for each block `D`, the block, whether it is visited, and its cells.

#![tactic(auto)]

ghost use Rattle.std.specs.Prelude.{◌≡◌, [], ◌∷◌, ◌+◌, ◌*◌, ◌≤◌, ◌<◌, length, get_or};
ghost use Rattle.std.proofs.Math.Option.{Option};
ghost use Rattle.lists.specs.Sets.{Wrote};
ghost use Rattle.paper.specs.Text.{tab};
ghost use Rattle.paper.specs.Limits.{max_blocks, words_size, queue_size};
ghost use Rattle.paper.specs.Cells as paper;
ghost use Rattle.paper.specs.Steps as paper_steps;
ghost use Rattle.paper.specs.Report.{by_block};
ghost use Rattle.layout.specs.Layout.{blocks_word};
ghost use Rattle.cells.specs.Packed.{name_of_word, marked, cell_of};
ghost use Rattle.loaded.specs.Loaded.{sheet_of};
ghost use Rattle.tables.specs.Table.{mark_of};
ghost use Rattle.checker.specs.Checked.{lent, Stated};
ghost use Rattle.states.specs.EntryStates as text;
ghost use Rattle.states.specs.Stated.{part_text, part_size, Written, HoldsStates, row_text, head_text, longest_cell, longest_head, longest_line, longest_text, states_size};

use cells::{KIND, KINDS, MARK};
use layout::{MARK_BASE, MAX_BLOCKS, MAX_REGS, MAX_SLOTS, ROW_WORDS, STATE_BASE, STATE_WORDS};
use paper::Rule;

// Bytes of a cell and of a line's head, each with its tabs.
const CELL_SIZE: usize = 6;

const HEAD_SIZE: usize = 7;

// The text of entry states: a line for each block, and in each room for 16 argument cells.
pub const STATES_SIZE: usize = MAX_BLOCKS
    * (HEAD_SIZE + CELL_SIZE * (MAX_REGS + MAX_SLOTS + 16) + 1);

// What is compared of a sheet: what a program writes of its answer, or its entry states.
#[derive(Clone, Copy)]
pub enum Part {
    Answer,
    States,
}

// A name, with `*` behind it if marked.
fn write_named(out: &mut [u8], at: usize, cell: u16) -> usize
    requires { at + longest_cell ≤ length out.old }
    ensures { Wrote out.old at (text.cell_text (paper.named (name_of_word cell) (marked cell))) out.new result × (result ≤ at + longest_cell) }
{
    let end = report::write_packed_name(out, at, cell);
    if cell / MARK % 2 == 1 {
        return fields::write_byte(out, end, b'*');
    }
    end
}

// A tab and a cell: `.` Absent, `?` Unknown, `!` Conflicted, or the name.
fn write_cell(out: &mut [u8], at: usize, cell: u16) -> usize
    requires { at + 1 + longest_cell ≤ length out.old }
    ensures { Wrote out.old at (tab ∷ text.cell_text (cell_of cell)) out.new result × (result ≤ at + 1 + longest_cell) }
{
    let next = fields::write_byte(out, at, b'\t');
    let kind = cell / KIND % KINDS;
    match kind {
        0 => fields::write_byte(out, next, b'.'),
        1 => fields::write_byte(out, next, b'?'),
        2 => fields::write_byte(out, next, b'!'),
        _ => write_named(out, next, cell),
    }
}

// The first n cells of the row that stands at `from`.
fn write_row(out: &mut [u8], at: usize, words: &[u16], from: usize, n: usize) -> usize
    requires { (from + n ≤ length words.now) × (at + (1 + longest_cell) * n ≤ length out.old) }
    ensures { Wrote out.old at (row_text from n words.now) out.new result × (result ≤ at + (1 + longest_cell) * n) }
{
    let mut next = at;
    for &cell in &words[from..from + n] {
        next = write_cell(out, next, cell);
    }
    next
}

// Under the house rule `1` or `0` for visited, under the old rule `-`.
fn visited(rule: Rule, mark: u16) -> u8
    ensures { (o : Option paper_steps.State) → mark ≡ mark_of o → (result ∷ []) ≡ text.visited_text rule o }
{
    match rule {
        Rule::Old => b'-',
        Rule::House => if mark == 0 { b'0' } else { b'1' },
    }
}

// `D`, the block, and whether it is visited.
fn write_head(out: &mut [u8], at: usize, b: usize, mark: u8) -> usize
    requires { (b < max_blocks) × (at + longest_head ≤ length out.old) }
    ensures { Wrote out.old at (head_text b mark) out.new result × (result ≤ at + longest_head) }
{
    let a = fields::write_byte(out, at, b'D');
    let c = fields::write_before_number(out, a, b'\t', b as u32);
    let d = fields::write_byte(out, c, b'\t');
    fields::write_byte(out, d, mark)
}

// The line of block b.
fn write_block(rule: Rule, words: &[u16], out: &mut [u8], at: usize, b: usize) -> usize
    requires { HoldsStates rule words.now × (b < get_or words.now blocks_word 0) × (at + longest_line ≤ length out.old) }
    ensures { Wrote out.old at (text.block_text rule (sheet_of words.now) b) out.new result × (result ≤ at + longest_line) }
{
    let counts = loaded::row_counts(words);
    let row = STATE_BASE + b * STATE_WORDS;
    let next_row = row + ROW_WORDS;
    let mark = visited(rule, words[MARK_BASE + b]);
    let head = write_head(out, at, b, mark);
    let first = write_row(out, head, words, row, counts.regs);
    let second = write_row(out, first, words, next_row, counts.slots);
    fields::write_byte(out, second, b'\n')
}

// The lines of all blocks.
fn write_blocks(rule: Rule, words: &[u16], out: &mut [u8]) -> usize
    requires { HoldsStates rule words.now × (states_size ≤ length out.old) }
    ensures { Wrote out.old 0 (by_block (text.block_text rule (sheet_of words.now)) 0 (get_or words.now blocks_word 0)) out.new result × (result ≤ longest_text) }
{
    let blocks = loaded::blocks(words);
    let mut next = 0;
    for b in 0..blocks {
        next = write_block(rule, words, out, next, b);
    }
    next
}

// The text's length, where the buffers are large enough; the scratch is left as it falls.
fn write_states(
    rule: Rule,
    sheet: &[u8],
    out: &mut [u8],
    words: &mut [u16],
    queue: &mut [u8],
) -> usize
    requires { (states_size ≤ length out.old) × (words_size ≤ length words.old) × (queue_size ≤ length queue.old) }
    ensures { Written (text.entry_states rule sheet.now) out.old words.old queue.old out.new words.new queue.new result }
{
    let Ok(()) = sheet::load(sheet, words) else {
        return 0;
    };
    let None = faults::find_missing(words) else {
        return 0;
    };
    runs::analyze(rule, words, queue);
    write_blocks(rule, words, out)
}

// The sheet's entry states at the start of `out`; the length of that text, which is empty for a sheet that is refused or lacks an
// allocation. Where `out` is shorter than STATES_SIZE, or the scratch than `check` asks for, all buffers stay as they are and the length
// is 0; else the scratch is left all zero.
pub fn entry_states(
    rule: Rule,
    sheet: &[u8],
    out: &mut [u8],
    words: &mut [u16],
    queue: &mut [u8],
) -> usize
    ensures { Stated states_size (text.entry_states rule sheet.now) (lent out.old words.old queue.old) (lent out.new words.new queue.new) result × (result ≤ longest_text) }
{
    if checker::too_short(STATES_SIZE, out, words, queue) {
        return 0;
    }
    let length = write_states(rule, sheet, out, words, queue);
    scratch::clear(words);
    scratch::clear(queue);
    length
}

// A part of what is compared, at the start of `out`: its length. Buffers and scratch are left as `entry_states` leaves them.
pub fn text_of(
    part: Part,
    rule: Rule,
    sheet: &[u8],
    out: &mut [u8],
    words: &mut [u16],
    queue: &mut [u8],
) -> usize
    ensures { Stated (part_size part) (part_text part rule sheet.now) (lent out.old words.old queue.old) (lent out.new words.new queue.new) result }
{
    match part {
        Part::Answer => checker::answer_text(rule, sheet, out, words, queue),
        Part::States => entry_states(rule, sheet, out, words, queue),
    }
}
