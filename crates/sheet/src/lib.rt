// The sheet reader: bytes to loaded words, or the refusal. One pass from line to line: `records` reads a line and judges it; here
// is told what the words say of its place, and what it says is stored.

#![tactic(auto)]

ghost use Rattle.std.specs.Prelude.{◌≡◌, ◌+◌, ◌≤◌, ◌<◌, length};
ghost use Rattle.paper.specs.Text.{fields};
ghost use Rattle.paper.specs.Limits.{words_size};
ghost use Rattle.paper.specs.Refusals.{one_byte, function_of, typed_of, block_of, two_numbers_of, change_of, operation_of, safepoint_of, record_of, no_text};
ghost use Rattle.layout.specs.Layout.{all_words};
ghost use Rattle.fields.specs.Fields.{field_at, line_at, fields_behind};
ghost use Rattle.records.specs.Records.{Behind};
ghost use Rattle.loaded.specs.Actions.{copy_step};
ghost use Rattle.sheet.specs.Reading.{limits_of, SheetText, Progress, step_place, LineRead, BadLine, Load};

use layout::{BLOCK_BASE, MAX_SHEET, MAX_STEPS, TYPED_BASE};
use loaded::{Action, CopyKind, Counts};
use paper::{ILL_FORMED, NO_TEXT, OUT_OF_PLACE, Refusal};
use records::{Breach, Place};

// The limits of a copy's two numbers.
#[derive(Clone, Copy)]
pub struct CopyLimits {
    pub into: u32,
    pub from: u32,
}

// Refusal 2: the sheet is empty, too long, or its last byte is not LF.
fn no_text(sheet: &[u8]) -> bool
    ensures { result ≡ no_text sheet.now }
{
    let n = sheet.len();
    if n == 0 {
        return true;
    }
    (MAX_SHEET < n) | (sheet[n - 1] != b'\n')
}

// The letter of the line at `at`, or 0 where its first field has not one byte.
// A number and no option: the paper's `one_byte`, by which `columns::field` is promised too, has 0 for none.
fn letter(sheet: &[u8], at: usize) -> u8
    requires { SheetText sheet.now × (at < length sheet.now) }
    ensures { result ≡ one_byte (field_at sheet.now at) }
{
    let b = sheet[at];
    if (b == b'\t') | (b == b'\n') {
        return 0;
    }
    let c = sheet[at + 1];
    if (c == b'\t') | (c == b'\n') { b } else { 0 }
}

// What the words say of a step: it is out of place before the first block, and the 1,025th is one too many.
fn step_place(words: &[u16]) -> Place
    requires { all_words ≤ length words.now }
    ensures { result ≡ step_place words.now }
{
    let reached = loaded::progress(words);
    Place {
        misplaced: reached.opened == 0,
        surplus: MAX_STEPS <= reached.steps,
    }
}

fn read_function(sheet: &[u8], at: usize, words: &mut [u16]) -> Result<usize, Breach>
    requires { Behind sheet.now at × Progress words.old }
    ensures { LineRead (function_of (fields_behind sheet.now at)) sheet.now at words.old words.new result }
{
    let reached = loaded::progress(words);
    let place = Place {
        misplaced: reached.begun,
        surplus: false,
    };
    let line = records::function_line(sheet, at, place)?;
    loaded::store_function(
        words,
        line.regs as u16,
        line.slots as u16,
        line.vregs as u16,
        line.blocks as u16,
        line.entry as u16,
    );
    Ok(line.next + 1)
}

fn read_typed(sheet: &[u8], at: usize, words: &mut [u16]) -> Result<usize, Breach>
    requires { Behind sheet.now at × Progress words.old }
    ensures { LineRead (typed_of (fields_behind sheet.now at)) sheet.now at words.old words.new result }
{
    let reached = loaded::progress(words);
    let place = Place {
        misplaced: !reached.begun | (reached.opened != 0),
        surplus: false,
    };
    let counts = loaded::counts_of(words);
    let line = records::typed_line(sheet, at, place, counts, reached.least)?;
    loaded::add_typed(words, line.n as usize);
    Ok(line.next + 1)
}

fn read_block(sheet: &[u8], at: usize, words: &mut [u16]) -> Result<usize, Breach>
    requires { Behind sheet.now at × Progress words.old }
    ensures { LineRead (block_of (fields_behind sheet.now at)) sheet.now at words.old words.new result }
{
    let reached = loaded::progress(words);
    let place = Place {
        misplaced: loaded::blocks(words) <= reached.opened,
        surplus: false,
    };
    let counts = loaded::counts_of(words);
    let line = records::block_line(sheet, at, place, counts)?;
    loaded::add_block(words, line.succs, line.count);
    Ok(line.next + 1)
}

// What the two numbers of a copy are held against: the counts of the rows that it goes between.
fn limits_of(kind: CopyKind, counts: Counts) -> CopyLimits
    ensures { result ≡ limits_of kind counts }
{
    let regs = counts.regs;
    let slots = counts.slots;
    match kind {
        CopyKind::Spill => CopyLimits {
            into: slots,
            from: regs,
        },
        CopyKind::Reload => CopyLimits {
            into: regs,
            from: slots,
        },
        CopyKind::Move => CopyLimits {
            into: regs,
            from: regs,
        },
    }
}

// `S slot reg`, `L reg slot`, `M into from`
fn read_copy(kind: CopyKind, sheet: &[u8], at: usize, words: &mut [u16]) -> Result<usize, Breach>
    requires { Behind sheet.now at × Progress words.old }
    ensures { LineRead (two_numbers_of (copy_step kind) (fields_behind sheet.now at)) sheet.now at words.old words.new result }
{
    let place = step_place(words);
    let counts = loaded::counts_of(words);
    let limits = limits_of(kind, counts);
    let line = records::pair_line(sheet, at, place, limits.into, limits.from)?;
    let into = line.a as usize;
    let from = line.b as usize;
    loaded::add_step(words, Action::Copy { kind, into, from });
    Ok(line.next + 1)
}

// `C inst slot from to`
fn read_change(sheet: &[u8], at: usize, words: &mut [u16]) -> Result<usize, Breach>
    requires { Behind sheet.now at × Progress words.old }
    ensures { LineRead (change_of (fields_behind sheet.now at)) sheet.now at words.old words.new result }
{
    let place = step_place(words);
    let counts = loaded::counts_of(words);
    let line = records::change_line(sheet, at, place, counts, &words[TYPED_BASE..BLOCK_BASE])?;
    let change = Action::Change {
        inst: line.inst,
        slot: line.slot as usize,
        from: line.from,
        to: line.to,
    };
    loaded::add_step(words, change);
    Ok(line.next + 1)
}

// `O inst n (name reg)*n m (name reg)*m`
fn read_operation(sheet: &[u8], at: usize, words: &mut [u16]) -> Result<usize, Breach>
    requires { Behind sheet.now at × Progress words.old }
    ensures { LineRead (operation_of (fields_behind sheet.now at)) sheet.now at words.old words.new result }
{
    let place = step_place(words);
    let counts = loaded::counts_of(words);
    let line = records::operation_line(sheet, at, place, counts, &words[TYPED_BASE..BLOCK_BASE])?;
    loaded::add_operation(words, line.inst, line.operands, line.n, line.m);
    Ok(line.next + 1)
}

// `P inst slot..`
fn read_safepoint(sheet: &[u8], at: usize, words: &mut [u16]) -> Result<usize, Breach>
    requires { Behind sheet.now at × Progress words.old }
    ensures { LineRead (safepoint_of (fields_behind sheet.now at)) sheet.now at words.old words.new result }
{
    let place = step_place(words);
    let counts = loaded::counts_of(words);
    let line = records::safepoint_line(sheet, at, place, counts)?;
    let safepoint = Action::Safepoint {
        inst: line.inst,
        mask: line.mask,
    };
    loaded::add_step(words, safepoint);
    Ok(line.next + 1)
}

// One line, by its letter; none is refusal 3.
fn read_line(sheet: &[u8], at: usize, words: &mut [u16]) -> Result<usize, Breach>
    requires { SheetText sheet.now × (at < length sheet.now) × Progress words.old }
    ensures { LineRead (record_of (fields (line_at sheet.now at))) sheet.now at words.old words.new result }
{
    match letter(sheet, at) {
        b'F' => read_function(sheet, at + 1, words),
        b'T' => read_typed(sheet, at + 1, words),
        b'B' => read_block(sheet, at + 1, words),
        b'S' => read_copy(CopyKind::Spill, sheet, at + 1, words),
        b'L' => read_copy(CopyKind::Reload, sheet, at + 1, words),
        b'M' => read_copy(CopyKind::Move, sheet, at + 1, words),
        b'C' => read_change(sheet, at + 1, words),
        b'O' => read_operation(sheet, at + 1, words),
        b'P' => read_safepoint(sheet, at + 1, words),
        _ => Err(Breach { number: ILL_FORMED }),
    }
}

// The refusal of a bad line, with the field that shows it.
fn refusal_of(sheet: &[u8], at: usize, words: &[u16], breach: Breach, line: usize) -> Refusal
    requires { SheetText sheet.now × (at < length sheet.now) × (all_words ≤ length words.now) }
    ensures { BadLine sheet.now at words.now breach line result }
{
    let counts = loaded::counts_of(words);
    let number = breach.number;
    let field = columns::field(sheet, at, letter(sheet, at), number, counts);
    Refusal {
        number,
        line,
        field,
    }
}

// The sheet's words, or its refusal. Whatever the words held before; a refusal's words may be anything, and the caller clears
// them.
pub fn load(sheet: &[u8], words: &mut [u16]) -> Result<(), Refusal>
    requires { words_size ≤ length words.old }
    ensures { Load sheet.now words.old words.new result }
{
    if no_text(sheet) {
        return Err(Refusal {
            number: NO_TEXT,
            line: 0,
            field: 0,
        });
    }
    scratch::clear(&mut words[..BLOCK_BASE]);
    let mut at = 0;
    let mut line: usize = 1;
    while at < sheet.len() {
        match read_line(sheet, at, words) {
            Ok(next) => {
                at = next;
                line += 1;
            }
            Err(breach) => return Err(refusal_of(sheet, at, words, breach, line)),
        }
    }
    let reached = loaded::progress(words);
    if !reached.begun | (reached.opened < loaded::blocks(words)) {
        return Err(Refusal {
            number: OUT_OF_PLACE,
            line,
            field: 0,
        });
    }
    Ok(())
}
