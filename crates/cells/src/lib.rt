// Packed cells, their meet by a table, and a state of two rows of cells, by value or changed in place. A cell is a u16: its name
// (virtual v is v, real r is 256 + r), its mark and its kind (absent 0, unknown 1, conflicted 2, named 3).

#![tactic(auto)]

ghost use Rattle.std.specs.Prelude.{◌≡◌, true, false, cond, List, map, ℕ, ◌+◌, ◌-◌, ◌^◌, ◌≤◌, ◌<◌, length, get_or, take};
ghost use Rattle.std.specs.Int.Count.{count_trailing_zeros};
ghost use Rattle.lists.specs.Over.{over};
ghost use Rattle.lists.specs.Region.{region};
ghost use Rattle.lists.specs.Bits.{set_bits};
ghost use Rattle.paper.specs.Text.{real};
ghost use Rattle.paper.specs.Sheet.{listed};
ghost use Rattle.paper.specs.Cells as paper;
ghost use Rattle.paper.specs.Steps.{cell_at, store_at, everywhere, by_place, safepoint_row, row_of, entry_rows, unfilled_rows};
ghost use Rattle.paper.specs.Limits.{max_regs};
ghost use Rattle.layout.specs.Layout.{row_words, state_words};
ghost use Rattle.cells.specs.Packed.{name_of_word, marked, cell_of};
ghost use Rattle.cells.specs.Meeting.{rule_index, meet_table, meet_word};
ghost use Rattle.cells.specs.States.{Stays, cells_of, state_of, stored_state, changes, meet_at, MetWith, Stored, RowsFit, row_counts};

use layout::ROW_WORDS;
use paper::Rule;

// The parts of a packed cell: the name stands below MARK, real names from REAL_NAMES on; the mark at MARK; the kind at KIND.
pub const REAL_NAMES: u16 = 256;

pub const MARK: u16 = 512;

pub const KIND: u16 = 1024;

pub const KINDS: u16 = 4;

pub const ABSENT_KIND: u16 = 0;

pub const NAMED_KIND: u16 = 3;

// The cells without a name, and a named cell's kind.
pub const UNKNOWN: u16 = 1024;

pub const CONFLICTED: u16 = 2048;

pub const NAMED: u16 = 3072;

// The named cell of real name 0, which the others follow.
const REAL_CELLS: u16 = NAMED + REAL_NAMES;

pub type State = [[u16; ROW_WORDS]; 2];

// How many cells each row of a state has.
#[derive(Clone, Copy)]
pub struct RowCounts {
    pub regs: usize,
    pub slots: usize,
}

// Which side wins the meet, by rule, left kind and right kind: 0 the left, 1 the right, 2 both are names.
const MEET: [[[u8; 4]; 4]; 2] = [
    [[0, 1, 1, 1], [0, 0, 1, 1], [0, 0, 0, 0], [0, 0, 1, 2]],
    [[0, 0, 0, 0], [1, 0, 0, 0], [1, 1, 0, 0], [1, 1, 1, 2]],
];

// The table's index of a rule.
fn rule_index(rule: Rule) -> usize
    ensures { result ≡ rule_index rule }
{
    rule as usize
}

// The table, to be lent.
pub fn meet_table() -> [[[u8; 4]; 4]; 2]
    ensures { result ≡ meet_table }
{
    MEET
}

// The meet of two cells, by the table that is lent.
fn meet(table: &[[[u8; 4]; 4]; 2], rule: Rule, a: u16, b: u16) -> u16
    requires { table.now ≡ meet_table }
    ensures { (result ≡ meet_word rule a b) × (cell_of result ≡ paper.meet rule (cell_of a) (cell_of b)) }
{
    let k = rule_index(rule);
    let left = (a / KIND % KINDS) as usize;
    let right = (b / KIND % KINDS) as usize;
    let side = table[k][left][right];
    if side == 0 {
        return a;
    }
    if side == 1 {
        return b;
    }
    if a % MARK != b % MARK {
        return CONFLICTED;
    }
    if a / MARK % 2 == 1 {
        return a;
    }
    if b / MARK % 2 == 1 { b } else { a }
}

// A cell as a copy has it: Absent becomes Unknown.
fn copied(w: u16) -> u16
    ensures { cell_of result ≡ paper.copied (cell_of w) }
{
    if w / KIND % KINDS == ABSENT_KIND {
        UNKNOWN
    } else {
        w
    }
}

// A cell after the name was written elsewhere.
fn overwritten(name: u16, w: u16) -> u16
    ensures { cell_of result ≡ paper.overwritten (name_of_word name) (cell_of w) }
{
    if w / KIND % KINDS == NAMED_KIND {
        if w % MARK == name % MARK {
            CONFLICTED
        } else {
            w
        }
    } else {
        w
    }
}

// A row after the name was written elsewhere, also its cells that do not count: a loop of fixed length is a few vector steps.
fn overwrite_row(row: &mut [u16; ROW_WORDS], name: u16)
    ensures { (n : ℕ) → n ≤ row_words → cells_of n row.new ≡ map (paper.overwritten (name_of_word name)) (cells_of n row.old) }
{
    for word in row.iter_mut() {
        *word = overwritten(name, *word);
    }
}

// The state after the name was written elsewhere: no cell holds it any more.
// (A loop over the two rows is no plainer than the two calls.)
pub fn overwrite(s: &mut State, name: u16)
    ensures { (counts : List ℕ) → RowsFit counts → state_of counts s.new ≡ everywhere (paper.overwritten (name_of_word name)) (state_of counts s.old) }
{
    overwrite_row(&mut s[0], name);
    overwrite_row(&mut s[1], name);
}

// The name to, with the mark of a cell.
fn renamed(to: u16, w: u16) -> u16
    ensures { cell_of result ≡ paper.named (name_of_word to) (marked w) }
{
    NAMED + w / MARK % 2 * MARK + to % MARK
}

// The slot of an ownership change, under the old rule.
pub fn old_changed(to: u16, w: u16) -> u16
    ensures { cell_of result ≡ paper.old_changed (name_of_word to) (cell_of w) }
{
    if w / KIND % KINDS == NAMED_KIND {
        renamed(to, w)
    } else {
        NAMED + to % MARK
    }
}

// The slot of an ownership change, under the house rule.
pub fn house_changed(from: u16, to: u16, w: u16) -> u16
    ensures { cell_of result ≡ paper.house_changed (name_of_word from) (name_of_word to) (cell_of w) }
{
    if w / KIND % KINDS != NAMED_KIND {
        return w;
    }
    if w % MARK == from % MARK {
        renamed(to, w)
    } else {
        CONFLICTED
    }
}

// What a safepoint leaves of a marked name: Unknown under the old rule, Conflicted under the house rule.
fn collected(rule: Rule, w: u16) -> u16
    ensures { cell_of result ≡ paper.collected rule (cell_of w) }
{
    if w / KIND % KINDS != NAMED_KIND {
        return w;
    }
    if w / MARK % 2 == 0 {
        return w;
    }
    match rule {
        Rule::Old => UNKNOWN,
        Rule::House => CONFLICTED,
    }
}

// Cell i of a row at a safepoint, which keeps its name where bit i of `kept` is set.
fn safepoint_cell(rule: Rule, kept: u32, i: usize, w: u16) -> u16
    requires { i < row_words }
    ensures { cell_of result ≡ cond (listed (set_bits kept) i) (cell_of w) (paper.collected rule (cell_of w)) }
{
    if (kept >> i) % 2 == 0 {
        collected(rule, w)
    } else {
        w
    }
}

// A row at a safepoint, also its cells that do not count; bit i of `kept` is set where cell i keeps its name.
fn collect_row(rule: Rule, row: &mut [u16; ROW_WORDS], kept: u32)
    ensures { (n : ℕ) → n ≤ row_words → cells_of n row.new ≡ by_place (λ i c. cond (listed (set_bits kept) i) c (paper.collected rule c)) (cells_of n row.old) }
{
    for (i, word) in row.iter_mut().enumerate() {
        *word = safepoint_cell(rule, kept, i, *word);
    }
}

// The state behind a safepoint that lists the slots of a mask.
pub fn update_stackmap(rule: Rule, s: &mut State, mask: u32)
    ensures { (counts : List ℕ) → RowsFit counts → state_of counts s.new ≡ by_place (safepoint_row rule (set_bits mask)) (state_of counts s.old) }
{
    collect_row(rule, &mut s[0], 0);
    collect_row(rule, &mut s[1], mask);
}

// One cell copied to another, as `S`, `L` and `M` do.
pub fn copy(s: &mut State, row: usize, place: usize, other: usize, from: usize)
    requires { (row < 2) × (place < row_words) × (other < 2) × (from < row_words) }
    ensures { (counts : List ℕ) → from < get_or counts other 0 → state_of counts s.new ≡ store_at row place (paper.copied (cell_at (state_of counts s.old) other from)) (state_of counts s.old) }
{
    s[row][place] = copied(s[other][from]);
}

// Is it plain without the table that the meet leaves the left word as it is? Then both are the same, or the left one wins over all
// that may come, or under the old rule nothing comes. Of other words the table decides.
fn stays(rule: Rule, a: u16, b: u16) -> bool
    ensures { result ≡ true → meet_word rule a b ≡ a }
{
    if a == b {
        return true;
    }
    match rule {
        Rule::Old => {
            if a == CONFLICTED {
                return true;
            }
            b == 0
        }
        Rule::House => {
            if b / KIND % KINDS == ABSENT_KIND {
                return false;
            }
            a == UNKNOWN
        }
    }
}

// Is it plain of each word of the row that stands at `at`?
fn row_stays(rule: Rule, words: &[u16], at: usize, row: &[u16; ROW_WORDS]) -> bool
    requires { at + row_words ≤ length words.now }
    ensures { result ≡ true → (k : ℕ) → k < row_words → Stays at (meet_at rule row.now) words.now k }
{
    let mut all = true;
    for (i, &word) in row.iter().enumerate() {
        all &= stays(rule, words[at + i], word);
    }
    all
}

// The mask of cell i, or of none where that stays.
fn mask_unless(stays: bool, i: usize) -> u32
    requires { i < row_words }
    ensures { result ≡ cond stays 0 (2 ^ i) }
{
    if stays { 0 } else { 1 << i }
}

// The places in the row that stands at `at` whose words the meet may change, as a mask.
fn may_change(rule: Rule, words: &[u16], at: usize, row: &[u16; ROW_WORDS]) -> u32
    requires { at + row_words ≤ length words.now }
    ensures { (k : ℕ) → k < row_words → listed (set_bits result) k ≡ false → Stays at (meet_at rule row.now) words.now k }
{
    let mut mask: u32 = 0;
    for (i, &word) in row.iter().enumerate() {
        let here = stays(rule, words[at + i], word);
        let bit = mask_unless(here, i);
        mask += bit;
    }
    mask
}

// A mask without its lowest set bit.
pub fn without_lowest(mask: u32) -> u32
    requires { 0 < mask }
    ensures { result ≡ mask - 2 ^ count_trailing_zeros 32 mask }
{
    mask & (mask - 1)
}

// A row met into the n words from `at` on: whether a word changed. Most rows stay, and of the others most words: the table is asked
// for the words that may change, lowest first.
fn meet_row(
    table: &[[[u8; 4]; 4]; 2],
    rule: Rule,
    words: &mut [u16],
    at: usize,
    row: &[u16; ROW_WORDS],
    n: usize,
) -> bool
    requires { (table.now ≡ meet_table) × (at + row_words ≤ length words.old) × (n ≤ row_words) }
    ensures { (words.new ≡ over at n (meet_at rule row.now) words.old) × (result ≡ changes at n (meet_at rule row.now) words.old) }
{
    if row_stays(rule, words, at, row) {
        return false;
    }
    let mut left = may_change(rule, words, at, row);
    let mut changed = false;
    while 0 < left {
        let i = u32::trailing_zeros(left) as usize;
        if n <= i {
            return changed;
        }
        let j = at + i;
        let old = words[j];
        let new = meet(table, rule, old, row[i]);
        words[j] = new;
        if new != old {
            changed = true;
        }
        left = without_lowest(left);
    }
    changed
}

// A state met into the one that stands at `at`: whether a cell changed.
pub fn meet_with(
    table: &[[[u8; 4]; 4]; 2],
    rule: Rule,
    words: &mut [u16],
    at: usize,
    s: State,
    counts: RowCounts,
) -> bool
    requires { (table.now ≡ meet_table) × (at + state_words ≤ length words.old) × RowsFit (row_counts counts) }
    ensures { MetWith rule (row_counts counts) at s words.old words.new result }
{
    let a = meet_row(table, rule, words, at, &s[0], counts.regs);
    let b = meet_row(table, rule, words, at + ROW_WORDS, &s[1], counts.slots);
    a | b
}

// The row that stands at `at`.
fn load_row(words: &[u16], at: usize) -> [u16; ROW_WORDS]
    requires { at + row_words ≤ length words.now }
    ensures { (n : ℕ) → n ≤ row_words → take n result ≡ region at n words.now }
{
    let mut row = [0u16; ROW_WORDS];
    row.copy_from_slice(&words[at..at + ROW_WORDS]);
    row
}

// The state that stands at `at`.
pub fn load(words: &[u16], at: usize) -> State
    requires { at + state_words ≤ length words.now }
    ensures { (counts : List ℕ) → RowsFit counts → state_of counts result ≡ stored_state counts at words.now }
{
    let a = load_row(words, at);
    let b = load_row(words, at + ROW_WORDS);
    [a, b]
}

// A row written to the n words from `at` on.
fn store_row(words: &mut [u16], at: usize, row: &[u16; ROW_WORDS], n: usize)
    requires { (at + n ≤ length words.old) × (n ≤ row_words) }
    ensures { words.new ≡ over at n (λ k w. get_or row.now k 0) words.old }
{
    words[at..at + n].copy_from_slice(&row[..n]);
}

// The state written at `at`.
pub fn store(words: &mut [u16], at: usize, s: State, counts: RowCounts)
    requires { (at + state_words ≤ length words.old) × RowsFit (row_counts counts) }
    ensures { Stored (row_counts counts) at s words.old words.new }
{
    store_row(words, at, &s[0], counts.regs);
    store_row(words, at + ROW_WORDS, &s[1], counts.slots);
}

// Registers 0 to n - 1, each holding its own name.
fn real_row(n: usize) -> [u16; ROW_WORDS]
    requires { n ≤ row_words }
    ensures { cells_of n result ≡ row_of n (λ i. paper.named (real i) false) }
{
    let mut row = [0u16; ROW_WORDS];
    for (i, word) in row[..n].iter_mut().enumerate() {
        *word = REAL_CELLS + i as u16;
    }
    row
}

// The state of a block that no walk reaches.
pub fn unreached_state(rule: Rule) -> State
    ensures { (counts : List ℕ) → RowsFit counts → state_of counts result ≡ unfilled_rows rule counts }
{
    match rule {
        Rule::Old => [[0u16; ROW_WORDS]; 2],
        Rule::House => [[1024u16; ROW_WORDS]; 2],
    }
}

// The state at the start of the entry block.
pub fn entry_state(rule: Rule, regs: usize) -> State
    requires { regs ≤ max_regs }
    ensures { (counts : List ℕ) → RowsFit counts → get_or counts 0 0 ≡ regs → state_of counts result ≡ entry_rows rule counts }
{
    let mut s = unreached_state(rule);
    let row = real_row(regs);
    s[0] = row;
    s
}
