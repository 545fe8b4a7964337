// The writer: a loaded form back to its sheet's one text. The text is laid into a local buffer and given to the reader, whose answer says
// whether a sheet gives the form; only then is the lent buffer looked at.

#![tactic(auto)]

ghost use Rattle.std.specs.Prelude.{◌≡◌, true, [], ◌∷◌, ◌++◌, map, ℕ, ◌+◌, ◌*◌, ◌≤◌, ◌<◌, length, get_or, take};
ghost use Rattle.lists.specs.Sets.{Wrote};
ghost use Rattle.lists.specs.Region.{region};
ghost use Rattle.lists.specs.Bits.{set_bits};
ghost use Rattle.paper.specs.Text.{tab, digits, name_text};
ghost use Rattle.paper.specs.Sheet.{change, safepoint};
ghost use Rattle.paper.specs.Limits.{max_blocks, max_succs, max_steps, max_sheet, words_size};
ghost use Rattle.paper.specs.Refusals.{function_record, typed_record, block_record, step_record, read};
ghost use Rattle.paper.specs.Report.{behind_tabs};
ghost use Rattle.paper.specs.Answer.{laid};
ghost use Rattle.paper.specs.Writing.{allocation_text, operand_texts, record_text, records_text, block_records, sheet_text, is_read};
ghost use Rattle.layout.specs.Layout.{typed_words, opened_word, defs_from, succ_base};
ghost use Rattle.cells.specs.Packed.{name_of_word};
ghost use Rattle.loaded.specs.Actions.{register_of, operands, step_of, action_at, steps_at};
ghost use Rattle.loaded.specs.Loaded.{first_step, step_total, succ_total, block_at, blocks_at, marked_from, sheet_of};
ghost use Rattle.spelling.specs.Parted.{row};
ghost use Rattle.writer.specs.Form.{BlockFits, typed_text, groups_text, fits, form_of, form_outcome, verdict_of, function_in, copy_letter, WriteExported};
ghost use Rattle.writer.specs.Load.{SheetLoaded, WrittenBack, load_verdict_of, LoadExported};
ghost use Rattle.writer.specs.Filled.{Filled, line_room};

use layout::{
    BLOCK_BASE, DEFS_FROM, MAX_BLOCKS, MAX_SHEET, MAX_STEPS, MAX_SUCCS, TYPED_BASE, TYPED_WORDS,
    WORDS_SIZE,
};
use loaded::{Action, CopyKind, Counts, NO_REGISTER, REGISTER};
use paper::{Refusal, TOO_SHORT, Unwritten};

// The text's room: a sheet's size, and a line more, so that what is too long is seen to be.
const LINE_ROOM: usize = 1536;

const TEXT_ROOM: usize = MAX_SHEET + LINE_ROOM;

// What writing comes to over the C interface: 0 written, 1 no sheet gives the form, 2 the buffer is too short; the text's length.
#[repr(C)]
#[derive(Clone, Copy)]
pub struct WriteVerdict {
    pub answer: u8,
    pub length: usize,
}

// What loading comes to over the C interface: the refusal's number, line and field, 0 where the sheet was read.
#[repr(C)]
#[derive(Clone, Copy)]
pub struct LoadVerdict {
    pub number: u8,
    pub line: usize,
    pub field: usize,
}

// The words have the published size, and no count in them goes beyond the room that they have for it.
fn fits(words: &[u16]) -> bool
    ensures { result ≡ fits words.now }
{
    if words.len() < WORDS_SIZE {
        return false;
    }
    let reached = loaded::progress(words);
    let opened = reached.opened;
    if MAX_BLOCKS < opened {
        return false;
    }
    for b in 0..opened {
        if MAX_SUCCS < loaded::succ_total(words, b) {
            return false;
        }
        if MAX_STEPS < loaded::first_step(words, b) + loaded::step_total(words, b) {
            return false;
        }
    }
    true
}

// A letter, and a number behind it as the line's first field.
fn write_lettered(text: &mut [u8], at: usize, letter: u8, v: u32) -> usize
    requires { at + 7 ≤ length text.old }
    ensures { Wrote text.old at (letter ∷ tab ∷ digits v) text.new result × (result ≤ at + 7) }
{
    let a = fields::write_byte(text, at, letter);
    fields::write_before_number(text, a, b'\t', v)
}

// A letter, two numbers, and the line's end.
fn write_pair(text: &mut [u8], at: usize, letter: u8, a: u32, b: u32) -> usize
    requires { at + 14 ≤ length text.old }
    ensures { Wrote text.old at (letter ∷ behind_tabs (digits a ∷ digits b ∷ [])) text.new result × (result ≤ at + 14) }
{
    let x = write_lettered(text, at, letter, a);
    let y = fields::write_before_number(text, x, b'\t', b);
    fields::write_byte(text, y, b'\n')
}

// `F regs slots vregs blocks entry`
fn write_function(text: &mut [u8], at: usize, counts: Counts, entry: u32) -> usize
    requires { at + 32 ≤ length text.old }
    ensures { Wrote text.old at (record_text (function_record counts.regs counts.slots counts.vregs counts.blocks entry)) text.new result × (result ≤ at + 32) }
{
    let a = write_lettered(text, at, b'F', counts.regs);
    let b = fields::write_before_number(text, a, b'\t', counts.slots);
    let c = fields::write_before_number(text, b, b'\t', counts.vregs);
    let d = fields::write_before_number(text, c, b'\t', counts.blocks);
    let e = fields::write_before_number(text, d, b'\t', entry);
    fields::write_byte(text, e, b'\n')
}

// `T n`, where the name's word lists it.
fn write_typed(text: &mut [u8], at: usize, n: u32, word: u16) -> usize
    requires { at + 8 ≤ length text.old }
    ensures { Wrote text.old at (typed_text n word) text.new result × (result ≤ at + 8) }
{
    if word == 0 {
        return at;
    }
    let a = write_lettered(text, at, b'T', n);
    fields::write_byte(text, a, b'\n')
}

// A `T` line for each typed name.
fn write_all_typed(typed: &[u16], text: &mut [u8], at: usize) -> usize
    requires { (length typed.now ≡ typed_words) × (at + 8 * typed_words ≤ length text.old) }
    ensures { Wrote text.old at (records_text (map typed_record (marked_from 0 typed.now))) text.new result × (result ≤ at + 8 * typed_words) }
{
    let mut next = at;
    for (n, &word) in typed.iter().enumerate() {
        next = write_typed(text, next, n as u32, word);
    }
    next
}

// Block b's successors, each behind a tab.
fn write_successors(words: &[u16], b: usize, text: &mut [u8], at: usize) -> usize
    requires { (words_size ≤ length words.now) × (b < max_blocks) × (succ_total words.now b ≤ max_succs) × (at + 48 ≤ length text.old) }
    ensures { Wrote text.old at (row (map digits (region (succ_base b) (succ_total words.now b) words.now))) text.new result × (result ≤ at + 48) }
{
    let total = loaded::succ_total(words, b);
    let mut next = at;
    for i in 0..total {
        let successor = loaded::successor(words, b, i);
        next = fields::write_before_number(text, next, b'\t', successor as u32);
    }
    next
}

// A tab and a name's nine bits.
fn write_name(text: &mut [u8], at: usize, w: u16) -> usize
    requires { at + 5 ≤ length text.old }
    ensures { Wrote text.old at (tab ∷ name_text (name_of_word w)) text.new result × (result ≤ at + 5) }
{
    let a = fields::write_byte(text, at, b'\t');
    report::write_packed_name(text, a, w)
}

// A tab and an operand's register, or `-` for none.
fn write_register(text: &mut [u8], at: usize, register: u16) -> usize
    requires { at + 6 ≤ length text.old }
    ensures { Wrote text.old at (tab ∷ allocation_text (register_of register)) text.new result × (result ≤ at + 6) }
{
    if register == NO_REGISTER {
        let a = fields::write_byte(text, at, b'\t');
        fields::write_byte(text, a, b'-')
    } else {
        fields::write_before_number(text, at, b'\t', register as u32)
    }
}

// The n operands from `from` on, each behind a tab.
fn write_operands(words: &[u16], from: usize, n: usize, text: &mut [u8], at: usize) -> usize
    requires { (from + n ≤ length words.now) × (n < 64) × (at + 11 * n ≤ length text.old) }
    ensures { Wrote text.old at (row (operand_texts (operands from n words.now))) text.new result × (result ≤ at + 11 * n) }
{
    let mut next = at;
    for &w in &words[from..from + n] {
        let a = write_name(text, next, w);
        next = write_register(text, a, w / REGISTER);
    }
    next
}

// How many operands there are from `from` on, and these.
fn write_group(words: &[u16], from: usize, n: usize, text: &mut [u8], at: usize) -> usize
    requires { (from + n ≤ length words.now) × (n < 64) × (at + 700 ≤ length text.old) }
    ensures { Wrote text.old at (row (digits (length (operands from n words.now)) ∷ operand_texts (operands from n words.now))) text.new result × (result ≤ at + 700) }
{
    let a = fields::write_before_number(text, at, b'\t', n as u32);
    write_operands(words, from, n, text, a)
}

// The slots of a mask, each behind a tab, the lowest first.
fn write_slots(text: &mut [u8], at: usize, mask: u32) -> usize
    requires { at + 192 ≤ length text.old }
    ensures { Wrote text.old at (row (map digits (set_bits mask))) text.new result × (result ≤ at + 192) }
{
    let mut next = at;
    let mut left = mask;
    while left != 0 {
        let slot = u32::trailing_zeros(left);
        next = fields::write_before_number(text, next, b'\t', slot);
        left = cells::without_lowest(left);
    }
    next
}

fn copy_letter(kind: CopyKind) -> u8
    ensures { result ≡ copy_letter kind }
{
    match kind {
        CopyKind::Spill => b'S',
        CopyKind::Reload => b'L',
        CopyKind::Move => b'M',
    }
}

// `C inst slot from to`
fn write_change(text: &mut [u8], at: usize, inst: u16, slot: u32, from: u16, to: u16) -> usize
    requires { at + 24 ≤ length text.old }
    ensures { Wrote text.old at (record_text (step_record (change inst slot (name_of_word from) (name_of_word to)))) text.new result }
{
    let a = write_lettered(text, at, b'C', inst as u32);
    let b = fields::write_before_number(text, a, b'\t', slot);
    let c = write_name(text, b, from);
    let d = write_name(text, c, to);
    fields::write_byte(text, d, b'\n')
}

// An operation's uses and defs, and the line's end.
fn write_groups(
    words: &[u16],
    from: usize,
    uses: usize,
    defs: usize,
    text: &mut [u8],
    at: usize,
) -> usize
    requires { (from + uses ≤ length words.now) × (from + defs_from + defs ≤ length words.now) × (uses < 64) × (defs < 64) × (at + 1401 ≤ length text.old) }
    ensures { Wrote text.old at (groups_text (operands from uses words.now) (operands (from + defs_from) defs words.now)) text.new result }
{
    let a = write_group(words, from, uses, text, at);
    let b = write_group(words, from + DEFS_FROM, defs, text, a);
    fields::write_byte(text, b, b'\n')
}

// `P inst slot..`
fn write_safepoint(text: &mut [u8], at: usize, inst: u16, mask: u32) -> usize
    requires { at + 200 ≤ length text.old }
    ensures { Wrote text.old at (record_text (step_record (safepoint inst (set_bits mask)))) text.new result }
{
    let a = write_lettered(text, at, b'P', inst as u32);
    let b = write_slots(text, a, mask);
    fields::write_byte(text, b, b'\n')
}

// The k-th step's line, where it begins within a sheet's size.
fn write_step(words: &[u16], k: usize, text: &mut [u8], at: usize) -> usize
    requires { (words_size ≤ length words.now) × (k < max_steps) × (max_sheet + line_room ≤ length text.old) }
    ensures { Filled text.old at (record_text (step_record (step_of words.now (action_at words.now k)))) text.new result }
{
    if MAX_SHEET < at {
        return at;
    }
    let action = loaded::action_at(words, k);
    match action {
        Action::Copy { kind, into, from } => {
            let letter = copy_letter(kind);
            write_pair(text, at, letter, into as u32, from as u32)
        }
        Action::Change {
            inst,
            slot,
            from,
            to,
        } => write_change(text, at, inst, slot as u32, from, to),
        Action::Operation {
            inst,
            at: from,
            uses,
            defs,
        } => {
            let a = write_lettered(text, at, b'O', inst as u32);
            write_groups(words, from, uses, defs, text, a)
        }
        Action::Safepoint { inst, mask } => write_safepoint(text, at, inst, mask),
    }
}

// The lines of the steps from the k-th on, as far as a sheet's size goes.
fn write_steps(words: &[u16], first: usize, total: usize, text: &mut [u8], at: usize) -> usize
    requires { (words_size ≤ length words.now) × (first + total ≤ max_steps) × (max_sheet + line_room ≤ length text.old) }
    ensures { Filled text.old at (records_text (map step_record (steps_at words.now first total))) text.new result }
{
    let mut next = at;
    for i in 0..total {
        next = write_step(words, first + i, text, next);
    }
    next
}

// Block b's own line, where it begins within a sheet's size.
fn write_opening(words: &[u16], b: usize, text: &mut [u8], at: usize) -> usize
    requires { (words_size ≤ length words.now) × (b < max_blocks) × (succ_total words.now b ≤ max_succs) × (max_sheet + line_room ≤ length text.old) }
    ensures { Filled text.old at (record_text (block_record (region (succ_base b) (succ_total words.now b) words.now))) text.new result }
{
    if MAX_SHEET < at {
        return at;
    }
    let a = fields::write_byte(text, at, b'B');
    let c = write_successors(words, b, text, a);
    fields::write_byte(text, c, b'\n')
}

// Block b's lines: its own, and those of its steps.
fn write_block(words: &[u16], b: usize, text: &mut [u8], at: usize) -> usize
    requires { (words_size ≤ length words.now) × (b < max_blocks) × BlockFits words.now b × (max_sheet + line_room ≤ length text.old) }
    ensures { Filled text.old at (records_text (block_records (block_at words.now b ∷ []))) text.new result }
{
    let first = loaded::first_step(words, b);
    let total = loaded::step_total(words, b);
    let opened = write_opening(words, b, text, at);
    write_steps(words, first, total, text, opened)
}

// The lines of all blocks.
fn write_blocks(words: &[u16], text: &mut [u8], at: usize) -> usize
    requires { (fits words.now ≡ true) × (max_sheet + line_room ≤ length text.old) }
    ensures { Filled text.old at (records_text (block_records (blocks_at words.now 0 (get_or words.now opened_word 0)))) text.new result }
{
    let reached = loaded::progress(words);
    let opened = reached.opened;
    let mut next = at;
    for b in 0..opened {
        next = write_block(words, b, text, next);
    }
    next
}

// The text of the form that the words hold, as far as a sheet's size goes.
fn write_text(words: &[u16], text: &mut [u8]) -> usize
    requires { (fits words.now ≡ true) × (max_sheet + line_room ≤ length text.old) }
    ensures { Filled text.old 0 (sheet_text (sheet_of words.now)) text.new result }
{
    let counts = loaded::counts_of(words);
    let entry = loaded::entry(words) as u32;
    let a = write_function(text, 0, counts, entry);
    let b = write_all_typed(&words[TYPED_BASE..BLOCK_BASE], text, a);
    write_blocks(words, text, b)
}

// Is the text read as a sheet?
fn is_read(text: &[u8]) -> bool
    ensures { result ≡ is_read (read text.now) }
{
    let mut words = [0u16; WORDS_SIZE];
    sheet::load(text, &mut words).is_ok()
}

// The text at the start of a buffer that has room for it.
fn lay(text: &[u8], out: &mut [u8])
    requires { length text.now ≤ length out.old }
    ensures { out.new ≡ laid text.now out.old }
{
    out[..text.len()].copy_from_slice(text);
}

// Writes the sheet whose loaded form the words hold to the start of the lent buffer. A form that no sheet gives is refused, then a buffer
// shorter than the text; either writes nothing, and bytes behind the text stay.
pub fn write_sheet(words: &[u16], out: &mut [u8]) -> Result<usize, Unwritten>
    ensures { record { answer = result; out = out.new } ≡ form_outcome (form_of words.now) out.old }
{
    if !fits(words) {
        return Err(Unwritten::NoSheet);
    }
    let mut text = [0u8; TEXT_ROOM];
    let length = write_text(words, &mut text);
    if MAX_SHEET < length {
        return Err(Unwritten::NoSheet);
    }
    if !is_read(&text[..length]) {
        return Err(Unwritten::NoSheet);
    }
    if out.len() < length {
        return Err(Unwritten::NoRoom);
    }
    lay(&text[..length], out);
    Ok(length)
}

// Loads a sheet, so that a caller can hold its loaded form. Fewer words than the published size are refused by 1, and nothing changes; a
// sheet that is refused leaves all words zero, and one that is read leaves its form in them.
pub fn load_sheet(sheet: &[u8], words: &mut [u16]) -> Result<(), Refusal>
    ensures { SheetLoaded sheet.now words.old words.new result }
{
    if words.len() < WORDS_SIZE {
        return Err(Refusal {
            number: TOO_SHORT,
            line: 0,
            field: 0,
        });
    }
    if let Err(refusal) = sheet::load(sheet, words) {
        scratch::clear(words);
        return Err(refusal);
    }
    Ok(())
}

// Loads a sheet and writes it back: its own bytes stand at the start of the lent buffer, and all words are zero.
pub fn write_back(sheet: &[u8], words: &mut [u16], out: &mut [u8]) -> Result<usize, Unwritten>
    ensures { WrittenBack sheet.now words.old out.old words.new out.new result }
{
    if words.len() < WORDS_SIZE {
        return Err(Unwritten::NoSheet);
    }
    match load_sheet(sheet, words) {
        Err(_) => Err(Unwritten::NoSheet),
        Ok(()) => {
            let written = write_sheet(words, out);
            scratch::clear(words);
            written
        }
    }
}

impl From<Result<(), Refusal>> for LoadVerdict {
    ghost use Rattle.std.specs.Prelude.{◌≡◌};
    ghost use Rattle.writer.specs.Load.{load_verdict_of};

    ghost from_gives = { λ loading verdict. verdict ≡ load_verdict_of loading };

    #[tactic(auto, unfolding(crate::specs::Load::load_verdict_of))]
    fn from(loading: Result<(), Refusal>) -> LoadVerdict {
        match loading {
            Ok(()) => LoadVerdict {
                number: 0,
                line: 0,
                field: 0,
            },
            Err(refusal) => LoadVerdict {
                number: refusal.number,
                line: refusal.line,
                field: refusal.field,
            },
        }
    }
}

// `load_sheet` for C and Rust.
#[unsafe(no_mangle)]
pub extern "C" fn itanropen_load(sheet: &[u8], words: &mut [u16]) -> LoadVerdict
    ensures { LoadExported sheet.now words.old words.new result }
{
    LoadVerdict::from(load_sheet(sheet, words))
}

impl From<Result<usize, Unwritten>> for WriteVerdict {
    ghost use Rattle.std.specs.Prelude.{◌≡◌};
    ghost use Rattle.writer.specs.Form.{verdict_of};

    ghost from_gives = { λ written verdict. verdict ≡ verdict_of written };

    #[tactic(auto, unfolding(crate::specs::Form::verdict_of))]
    fn from(written: Result<usize, Unwritten>) -> WriteVerdict {
        match written {
            Ok(length) => WriteVerdict { answer: 0, length },
            Err(Unwritten::NoSheet) => WriteVerdict {
                answer: 1,
                length: 0,
            },
            Err(Unwritten::NoRoom) => WriteVerdict {
                answer: 2,
                length: 0,
            },
        }
    }
}

// `write_sheet` for C and Rust.
#[unsafe(no_mangle)]
pub extern "C" fn itanropen_write(words: &[u16], out: &mut [u8]) -> WriteVerdict
    ensures { WriteExported words.now out.old out.new result }
{
    WriteVerdict::from(write_sheet(words, out))
}
