// The table of states in the lent words: a state and a mark for each block, how every block begins, and what happens where a state
// comes to a block. No order of visits stands here: `runs` has it.

#![tactic(auto)]

ghost use Rattle.std.specs.Prelude.{◌≡◌, [], ℕ, ◌<◌, get_or};
ghost use Rattle.paper.specs.Sheet.{Sheet};
ghost use Rattle.paper.specs.Report.{missing_allocations};
ghost use Rattle.paper.specs.Runs as paper_runs;
ghost use Rattle.layout.specs.Layout.{blocks_word};
ghost use Rattle.cells.specs.Meeting.{meet_table};
ghost use Rattle.loaded.specs.Loaded.{sheet_of};
ghost use Rattle.tables.specs.Held.{RunKept};
ghost use Rattle.tables.specs.Table.{Ready, mark_of, Tables, Came, Entered, ResultOf};

use cells::State;
use layout::{MARK_BASE, STATE_BASE, STATE_WORDS};
use paper::Rule;

// The mark that a block begins with: under the old rule every block has a state.
fn first_mark(rule: Rule) -> u16
    ensures { (S : Sheet) (b : ℕ) → result ≡ mark_of (paper_runs.before rule S b) }
{
    match rule {
        Rule::Old => 1,
        Rule::House => 0,
    }
}

// Block b gets a state, and is visited.
pub fn enter(words: &mut [u16], b: usize, s: State)
    requires { Ready words.old × (b < get_or words.old blocks_word 0) }
    ensures { Entered b s words.old words.new }
{
    let counts = loaded::row_counts(words);
    cells::store(words, STATE_BASE + b * STATE_WORDS, s, counts);
    words[MARK_BASE + b] = 1;
}

// Every block as it begins.
pub fn begin_blocks(rule: Rule, words: &mut [u16])
    requires { Ready words.old }
    ensures { RunKept words.old words.new × Tables rule (sheet_of words.old) words.new (paper_runs.before rule (sheet_of words.old)) }
{
    let counts = loaded::row_counts(words);
    let s = cells::unreached_state(rule);
    for b in 0..loaded::blocks(words) {
        cells::store(words, STATE_BASE + b * STATE_WORDS, s, counts);
        words[MARK_BASE + b] = first_mark(rule);
    }
}

// A state comes to block b: whether that changes a cell or marks the block.
pub fn join(table: &[[[u8; 4]; 4]; 2], rule: Rule, words: &mut [u16], b: usize, s: State) -> bool
    requires { (table.now ≡ meet_table) × Ready words.old × (b < get_or words.old blocks_word 0) }
    ensures { Came rule b s words.old words.new result }
{
    if words[MARK_BASE + b] == 0 {
        enter(words, b, s);
        return true;
    }
    let counts = loaded::row_counts(words);
    cells::meet_with(table, rule, words, STATE_BASE + b * STATE_WORDS, s, counts)
}

// What block b makes of the state that it holds.
pub fn result_of(rule: Rule, words: &[u16], b: usize) -> State
    requires { Ready words.now × (missing_allocations (sheet_of words.now) ≡ []) × (b < get_or words.now blocks_word 0) }
    ensures { ResultOf rule b words.now result }
{
    let s = cells::load(words, STATE_BASE + b * STATE_WORDS);
    let first = loaded::first_step(words, b);
    let count = loaded::step_total(words, b);
    steps::effects(words, rule, s, first, count)
}
