// The analysis under either rule: the blocks that wait, in the lent queue, and the visits over the table of states.

#![tactic(auto)]

ghost use Rattle.std.specs.Prelude.{◌≡◌, [], ◌∷◌, ◌++◌, ◌≤◌, ◌<◌, ◌↔◌, length, IsTrue};
ghost use Rattle.paper.specs.Report.{missing_allocations};
ghost use Rattle.paper.specs.Limits.{max_blocks, queue_size};
ghost use Rattle.paper.specs.Runs as paper_runs;
ghost use Rattle.layout.specs.Layout.{run_words};
ghost use Rattle.cells.specs.Meeting.{meet_table};
ghost use Rattle.loaded.specs.Loaded.{sheet_of, Loaded};
ghost use Rattle.runs.specs.Queue.{place, waits};
ghost use Rattle.tables.specs.Table.{Ready};
ghost use Rattle.runs.specs.Stands.{Begins, Continues, Analysed};
ghost use Rattle.runs.specs.Settled.{unsettled, Visited};

use layout::{MAX_BLOCKS, QUEUE_SIZE};
use paper::Rule;
use std::marker::Model;

// The blocks that wait: `count` of the lent bytes from `front` on, round the end of the first QUEUE_SIZE.
#[derive(Drop)]
struct Queue<'a> {
    bytes: &'a mut [u8],
    front: usize,
    count: usize,
}

impl<'a> Model for Queue<'a> {
    ghost use Rattle.std.specs.Prelude.{List, ℕ};
    ghost use Rattle.runs.specs.Queue.{held_from, Sound};

    ghost Value = { List ℕ };

    ghost view = { λ q. held_from q.bytes.now q.front q.count };

    ghost invariant = { λ q. Sound q.bytes.now q.front q.count };
}

// The place n bytes behind `front`.
fn place(front: usize, n: usize) -> usize
    requires { (front < queue_size) × (n ≤ queue_size) }
    ensures { (result ≡ place front n) × (result < queue_size) }
{
    let there = front + n;
    if there < QUEUE_SIZE {
        there
    } else {
        there - QUEUE_SIZE
    }
}

impl<'a> Queue<'a> {
    // No block waits.
    fn new(bytes: &'a mut [u8]) -> Self
        requires { queue_size ≤ length bytes.old }
        ensures { result ≡ [] }
    {
        Queue {
            bytes,
            front: 0,
            count: 0,
        }
    }

    fn is_empty(&self) -> bool
        ensures { IsTrue result ↔ (length self.now ≡ 0) }
    {
        self.count == 0
    }

    // A block more waits.
    fn push(&mut self, b: u8)
        requires { length self.old < queue_size }
        ensures { self.new ≡ self.old ++ b ∷ [] }
    {
        let there = place(self.front, self.count);
        self.bytes[there] = b;
        self.count += 1;
    }

    // The block that waits longest waits no more.
    fn take(&mut self) -> u8
        requires { 0 < length self.old }
        ensures { self.old ≡ result ∷ self.new }
    {
        let b = self.bytes[self.front];
        self.front = place(self.front, 1);
        self.count -= 1;
        b
    }
}

// The run as it begins: the entry has its state and waits.
fn begin(rule: Rule, words: &mut [u16], queue: &mut Queue)
    requires { Ready words.old × (queue.old ≡ []) }
    ensures { Begins rule words.old words.new queue.new }
{
    let counts = loaded::row_counts(words);
    let entry = loaded::entry(words);
    tables::begin_blocks(rule, words);
    tables::enter(words, entry, cells::entry_state(rule, counts.regs));
    queue.push(entry as u8);
}

// Where what came to block b is new, the block waits, and is settled no more.
fn wait(new: bool, queue: &mut Queue, settled: &mut [bool; MAX_BLOCKS], b: usize)
    requires { (length queue.old < queue_size) × (b < max_blocks) }
    ensures { (queue.new ≡ waits new b queue.old) × (settled.new ≡ unsettled new b settled.old) }
{
    if new {
        settled[b] = false;
        queue.push(b as u8);
    }
}

// One visit: the block at the front is taken, its steps are run, and each successor in listed order gets the result. A settled block
// has the state of its last visit and its successors have the result, so there is nothing to do.
fn visit(
    table: &[[[u8; 4]; 4]; 2],
    rule: Rule,
    words: &mut [u16],
    queue: &mut Queue,
    settled: &mut [bool; MAX_BLOCKS],
)
    requires { (table.now ≡ meet_table) × Continues rule words.old queue.old × (0 < length queue.old) }
    ensures { Visited rule words.old queue.old settled.old words.new queue.new settled.new }
{
    let b = queue.take() as usize;
    if settled[b] {
        return;
    }
    settled[b] = true;
    let result = tables::result_of(rule, words, b);
    for i in 0..loaded::succ_total(words, b) {
        let s = loaded::successor(words, b, i);
        let new = tables::join(table, rule, words, s, result);
        wait(new, queue, settled, s);
    }
}

// The run of a rule to its end, in the words behind the loaded sheet: how many visits it took.
pub fn analyze(rule: Rule, words: &mut [u16], queue: &mut [u8]) -> usize
    requires { Loaded words.old × (missing_allocations (sheet_of words.old) ≡ []) × (run_words ≤ length words.old) × (queue_size ≤ length queue.old) }
    ensures { Analysed rule words.old queue.old words.new queue.new × paper_runs.EndsAfter rule (sheet_of words.old) result × (result ≤ paper_runs.visit_bound rule (sheet_of words.old)) }
{
    let table = cells::meet_table();
    let mut waiting = Queue::new(queue);
    begin(rule, words, &mut waiting);
    let mut settled = [false; MAX_BLOCKS];
    let mut visits: usize = 0;
    while !waiting.is_empty() {
        visit(&table, rule, words, &mut waiting, &mut settled);
        visits += 1;
    }
    visits
}
