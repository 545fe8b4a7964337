// One line of a sheet, read and judged by value: what it says, or the lowest of refusals 3 to 9 that it breaks beside the sheet so
// far.

#![tactic(auto)]

ghost use Rattle.std.specs.Prelude.{◌≡◌, List, [], ◌∷◌, ◌++◌, map, ℕ, ◌+◌, ◌^◌, ◌≤◌, ◌<◌, eqb, leb, length, get_or, take, drop};
ghost use Rattle.std.specs.List.{list_any};
ghost use Rattle.std.proofs.Math.Option.{Option, none, some};
ghost use Rattle.std.proofs.Math.Decide.{ℕ_discrete};
ghost use Rattle.lists.specs.Over.{over};
ghost use Rattle.paper.specs.Limits.{max_slots, max_succs, max_operands};
ghost use Rattle.paper.specs.Sheet.{Operand, Step, Sheet, operation};
ghost use Rattle.paper.specs.Refusals.{function_record, typed_record, block_record, step_record, function_of, typed_of, block_of, two_numbers_of, change_of, operation_of, safepoint_of, any, repeats, elsewhere, operand_beyond, name_beyond, beyond_limit, so_far_of, first_holding, conditions};
ghost use Rattle.layout.specs.Layout.{typed_words, operand_words};
ghost use Rattle.fields.specs.Fields.{line_end, fields_behind};
ghost use Rattle.records.specs.Records.{holding, judged_of, told, function_line, typed_line, block_line, pair_line, change_line, operation_line, safepoint_line, Placed, Behind, NumberBehind, NameBehind, AllocationBehind, name_of_code, register_of_code, CountsWithin, Counted, TypedBy, Least, Paired, FunctionClear, TypedClear, BlockClear, PairClear, ChangeClear, OperationClear, SafepointClear};
ghost use Rattle.records.specs.Parts.{NumbersRead, ExactlyRead, no_codes, name_code, register_code, operand_meant, OperandBehind, held, Roomy, OperandsKept, OperandsRead, group_over, OperationWithin, below, name_word, register_word, mark_word, is_typed, word, Small, Listing, SlotsRead, counted, ChangeRead};

use cells::MARK;
use fields::Name;
use layout::{DEFS_FROM, MAX_OPERANDS, MAX_SUCCS, OPERAND_WORDS};
use loaded::{Counts, NO_REGISTER, REGISTER};
use paper::{
    BEYOND_LIMIT, ILL_FORMED, OUT_OF_ORDER, OUT_OF_PLACE, REAL_ELSEWHERE, STEP_TOO_MANY,
    TYPES_DIFFER,
};

// A name and an allocation are read into one number each: from here on a real name, and no register.
const REAL: u32 = 100000;

pub const NO_ALLOCATION: u32 = 100000;

const REAL_NAMES: u32 = cells::REAL_NAMES as u32;

// The limits of a line's numbers, as it is read.
const MAX_REGS: u32 = layout::MAX_REGS as u32;

const MAX_SLOTS: u32 = layout::MAX_SLOTS as u32;

const MAX_VREGS: u32 = layout::MAX_VREGS as u32;

const MAX_BLOCKS: u32 = layout::MAX_BLOCKS as u32;

const MAX_INST: u32 = layout::MAX_INST as u32;

// What is known of a line by the lines before it: is it out of place, and is it a step too many?
#[derive(Clone, Copy)]
pub struct Place {
    pub misplaced: bool,
    pub surplus: bool,
}

// What a line breaks: the number of its refusal.
#[derive(Clone, Copy)]
pub struct Breach {
    pub number: u8,
}

// What a good line of `F`, `T`, `B`, of two numbers, `C`, `O` or `P` says, and the place of its line feed.
#[derive(Clone, Copy)]
pub struct FunctionLine {
    pub regs: u32,
    pub slots: u32,
    pub vregs: u32,
    pub blocks: u32,
    pub entry: u32,
    pub next: usize,
}

#[derive(Clone, Copy)]
pub struct TypedLine {
    pub n: u32,
    pub next: usize,
}

// As many of the successors count as `count` says.
#[derive(Clone, Copy)]
pub struct BlockLine {
    pub count: usize,
    pub next: usize,
    pub succs: [u32; MAX_SUCCS],
}

#[derive(Clone, Copy)]
pub struct PairLine {
    pub a: u32,
    pub b: u32,
    pub next: usize,
}

#[derive(Clone, Copy)]
pub struct ChangeLine {
    pub inst: u16,
    pub slot: u32,
    pub from: u16,
    pub to: u16,
    pub next: usize,
}

// The words of `n` uses stand at 0, those of `m` defs at DEFS_FROM.
#[derive(Clone, Copy)]
pub struct OperationLine {
    pub inst: u16,
    pub n: usize,
    pub m: usize,
    pub next: usize,
    pub operands: [u16; OPERAND_WORDS],
}

#[derive(Clone, Copy)]
pub struct SafepointLine {
    pub inst: u16,
    pub mask: u32,
    pub next: usize,
}

// The numbers that are left of a line, at most 8, and the place of the line feed.
#[derive(Clone, Copy)]
pub struct Numbers {
    pub count: usize,
    pub values: [u32; MAX_SUCCS],
    pub next: usize,
}

// The fields of a `C`: its numbers, its names in one number each, and the place of the line feed.
#[derive(Clone, Copy)]
pub struct Change {
    pub inst: u32,
    pub slot: u32,
    pub from: u32,
    pub to: u32,
    pub next: usize,
}

// An operand: its name and its register, in one number each.
#[derive(Clone, Copy)]
pub struct OperandCodes {
    pub name: u32,
    pub register: u32,
}

// A group of operands, `n (name reg)*n`: how many there are, and the first 8.
#[derive(Clone, Copy)]
pub struct Operands {
    pub count: usize,
    pub operands: [OperandCodes; MAX_OPERANDS],
}

// The slots of a `P` so far: is one beyond the limit, are they out of order, their mask, and the least that may come next.
#[derive(Clone, Copy)]
pub struct Listed {
    pub beyond: bool,
    pub disorder: bool,
    pub mask: u32,
    pub least: u32,
}

// The next field of the line, as a number, and the place behind it.
pub fn number_behind(s: &[u8], at: usize) -> Option<(u32, usize)>
    requires { Behind s.now at }
    ensures { NumberBehind s.now at result }
{
    if s[at] != b'\t' {
        return None;
    }
    fields::read_number(s, at + 1)
}

// The next field as a name in one number: that of a virtual name, and 100,000 more for a real one.
pub fn name_behind(s: &[u8], at: usize) -> Option<(u32, usize)>
    requires { Behind s.now at }
    ensures { NameBehind s.now at result }
{
    if s[at] != b'\t' {
        return None;
    }
    let (name, next) = fields::read_name(s, at + 1)?;
    match name {
        Name::Real(n) => Some((REAL + n, next)),
        Name::Virtual(n) => Some((n, next)),
    }
}

// The next field as an allocation in one number: the register's, or 100,000 for none.
pub fn allocation_behind(s: &[u8], at: usize) -> Option<(u32, usize)>
    requires { Behind s.now at }
    ensures { AllocationBehind s.now at result }
{
    if s[at] != b'\t' {
        return None;
    }
    let (register, next) = fields::read_allocation(s, at + 1)?;
    Some((register.unwrap_or(NO_ALLOCATION), next))
}

// The one place where a well-formed line gets its number: document 01's order.
fn lowest(
    place: Place,
    beyond: bool,
    disorder: bool,
    elsewhere: bool,
    differ: bool,
) -> Result<(), Breach>
    ensures { result ≡ judged_of (first_holding (holding place beyond disorder elsewhere differ)) }
{
    let number = if place.misplaced {
        OUT_OF_PLACE
    } else if beyond {
        BEYOND_LIMIT
    } else if disorder {
        OUT_OF_ORDER
    } else if elsewhere {
        REAL_ELSEWHERE
    } else if differ {
        TYPES_DIFFER
    } else if place.surplus {
        STEP_TOO_MANY
    } else {
        return Ok(());
    };
    Err(Breach { number })
}

// All that is left of a line, as at most 8 numbers, and the place of the line feed; none where a field is no number or a ninth
// stands there.
fn read_numbers(s: &[u8], at: usize) -> Option<Numbers>
    requires { Behind s.now at }
    ensures { NumbersRead s.now at result }
{
    let mut values = [0u32; MAX_SUCCS];
    let mut count: usize = 0;
    let mut i = at;
    while s[i] != b'\n' {
        let (v, next) = number_behind(s, i)?;
        if count == MAX_SUCCS {
            return None;
        }
        values[count] = v;
        count += 1;
        i = next;
    }
    Some(Numbers {
        count,
        values,
        next: i,
    })
}

// All that is left of a line, as `n` numbers.
fn read_exactly(s: &[u8], at: usize, n: usize) -> Option<Numbers>
    requires { Behind s.now at × (n ≤ max_succs) }
    ensures { ExactlyRead s.now at n result }
{
    let read = read_numbers(s, at)?;
    if read.count == n { Some(read) } else { None }
}

// Is one of `F`'s values beyond its limit?
fn function_beyond(regs: u32, slots: u32, vregs: u32, blocks: u32, entry: u32) -> bool
    ensures { (S : Sheet) → result ≡ beyond_limit S (function_record regs slots vregs blocks entry) }
{
    (MAX_REGS < regs)
        | ((MAX_SLOTS < slots)
            | ((MAX_VREGS < vregs) | ((MAX_BLOCKS < blocks) | ((blocks == 0) | (blocks <= entry)))))
}

// Is one of the numbers at the limit or beyond it?
fn any_beyond(values: &[u32], limit: u32) -> bool
    ensures { result ≡ list_any (leb limit) values.now }
{
    values.iter().any(|&value| limit <= value)
}

// `F regs slots vregs blocks entry`.
pub fn function_line(s: &[u8], at: usize, place: Place) -> Result<FunctionLine, Breach>
    requires { Behind s.now at }
    ensures result_value { (so : Option Sheet) → ((a b c d e : ℕ) → Placed so (function_record a b c d e) place) → function_line result ≡ told so (line_end s.now at) (function_of (fields_behind s.now at)) }
    ensures clear { FunctionClear s.now place result }
{
    let Some(read) = read_exactly(s, at, 5) else {
        return Err(Breach { number: ILL_FORMED });
    };
    let v = read.values;
    let regs = v[0];
    let slots = v[1];
    let vregs = v[2];
    let blocks = v[3];
    let entry = v[4];
    let beyond = function_beyond(regs, slots, vregs, blocks, entry);
    lowest(place, beyond, false, false, false)?;
    Ok(FunctionLine {
        regs,
        slots,
        vregs,
        blocks,
        entry,
        next: read.next,
    })
}

// `T n`, with `least` the least number that may come next.
pub fn typed_line(
    s: &[u8],
    at: usize,
    place: Place,
    counts: Counts,
    least: u32,
) -> Result<TypedLine, Breach>
    requires { Behind s.now at }
    ensures by_index { (so : Option Sheet) → ((n : ℕ) → Placed so (typed_record n) place) → Counted (so_far_of so) counts → Least (so_far_of so) least → typed_line result ≡ told so (line_end s.now at) (typed_of (fields_behind s.now at)) }
    ensures clear { TypedClear s.now place counts.vregs least result }
{
    let Some(read) = read_exactly(s, at, 1) else {
        return Err(Breach { number: ILL_FORMED });
    };
    let v = read.values;
    let n = v[0];
    lowest(place, counts.vregs <= n, n < least, false, false)?;
    Ok(TypedLine { n, next: read.next })
}

// `B succ..`; a ninth successor is a field too many.
pub fn block_line(s: &[u8], at: usize, place: Place, counts: Counts) -> Result<BlockLine, Breach>
    requires { Behind s.now at }
    ensures by_index { (so : Option Sheet) → ((ns : List ℕ) → Placed so (block_record ns) place) → Counted (so_far_of so) counts → block_line result ≡ told so (line_end s.now at) (block_of (fields_behind s.now at)) }
    ensures clear { BlockClear s.now place counts.blocks result }
{
    let Some(read) = read_numbers(s, at) else {
        return Err(Breach { number: ILL_FORMED });
    };
    let succs = read.values;
    let beyond = any_beyond(&succs[..read.count], counts.blocks);
    lowest(place, beyond, false, false, false)?;
    Ok(BlockLine {
        count: read.count,
        next: read.next,
        succs,
    })
}

// `S slot reg`, `L reg slot` and `M into from`, each with its two limits.
pub fn pair_line(
    s: &[u8],
    at: usize,
    place: Place,
    first: u32,
    second: u32,
) -> Result<PairLine, Breach>
    requires { Behind s.now at }
    ensures result_value { (so : Option Sheet) (step : ℕ → ℕ → Step) → ((x : Step) → Placed so (step_record x) place) → Paired (so_far_of so) step first second → pair_line step result ≡ told so (line_end s.now at) (two_numbers_of step (fields_behind s.now at)) }
    ensures clear { PairClear s.now place first second result }
{
    let Some(read) = read_exactly(s, at, 2) else {
        return Err(Breach { number: ILL_FORMED });
    };
    let v = read.values;
    let a = v[0];
    let b = v[1];
    lowest(place, (first <= a) | (second <= b), false, false, false)?;
    Ok(PairLine {
        a,
        b,
        next: read.next,
    })
}

// Is the name's number beyond `F`'s count?
pub fn name_beyond(name: u32, counts: Counts) -> bool
    ensures { result ≡ name_beyond (counted counts) (name_of_code name) }
{
    if name < REAL {
        counts.vregs <= name
    } else {
        counts.regs <= name - REAL
    }
}

// Is the name reference-typed? A real one never is.
fn is_typed(typed: &[u16], name: u32) -> bool
    requires { length typed.now ≡ typed_words }
    ensures { result ≡ is_typed typed.now name }
{
    if name < MAX_VREGS {
        typed[name as usize] != 0
    } else {
        false
    }
}

// A name as a packed cell has it.
fn name_word(name: u32) -> u16
    requires { name_word name < 512 }
    ensures { result ≡ name_word name }
{
    if name < REAL {
        name as u16
    } else {
        (name - REAL + REAL_NAMES) as u16
    }
}

// The fields of a `C`, to the line's end.
fn read_change(s: &[u8], at: usize) -> Option<Change>
    requires { Behind s.now at }
    ensures { ChangeRead s.now at result }
{
    let (inst, a) = number_behind(s, at)?;
    let (slot, b) = number_behind(s, a)?;
    let (from, c) = name_behind(s, b)?;
    let (to, next) = name_behind(s, c)?;
    if s[next] != b'\n' {
        return None;
    }
    Some(Change {
        inst,
        slot,
        from,
        to,
        next,
    })
}

// `C inst slot from to`: the names come in nine bits each.
pub fn change_line(
    s: &[u8],
    at: usize,
    place: Place,
    counts: Counts,
    typed: &[u16],
) -> Result<ChangeLine, Breach>
    requires { Behind s.now at × (length typed.now ≡ typed_words) × CountsWithin counts }
    ensures result_value { (so : Option Sheet) → ((x : Step) → Placed so (step_record x) place) → Counted (so_far_of so) counts → TypedBy (so_far_of so) typed.now → change_line result ≡ told so (line_end s.now at) (change_of (fields_behind s.now at)) }
    ensures clear { ChangeClear s.now place counts.slots result }
{
    let Some(read) = read_change(s, at) else {
        return Err(Breach { number: ILL_FORMED });
    };
    let from = read.from;
    let to = read.to;
    let beyond = (MAX_INST < read.inst)
        | ((counts.slots <= read.slot) | (name_beyond(from, counts) | name_beyond(to, counts)));
    let differ = is_typed(typed, from) != is_typed(typed, to);
    lowest(place, beyond, false, false, differ)?;
    Ok(ChangeLine {
        inst: read.inst as u16,
        slot: read.slot,
        from: name_word(from),
        to: name_word(to),
        next: read.next,
    })
}

// The next two fields of the line, as a name and its allocation.
fn operand_behind(s: &[u8], at: usize) -> Option<(OperandCodes, usize)>
    requires { Behind s.now at }
    ensures { OperandBehind s.now at result }
{
    let (name, next) = name_behind(s, at)?;
    let (register, end) = allocation_behind(s, next)?;
    Some((OperandCodes { name, register }, end))
}

// A group of operands, and the place behind it: the form of all is read, and the first 8 are kept.
fn read_operands(s: &[u8], at: usize) -> Option<(Operands, usize)>
    requires { Behind s.now at }
    ensures { OperandsRead s.now at result }
{
    let (n, first) = number_behind(s, at)?;
    let mut operands = [OperandCodes {
        name: 0,
        register: 0,
    }; MAX_OPERANDS];
    let mut i = first;
    for count in 0..n as usize {
        let (operand, next) = operand_behind(s, i)?;
        if count < MAX_OPERANDS {
            operands[count] = operand;
        }
        i = next;
    }
    let group = Operands {
        count: n as usize,
        operands,
    };
    Some((group, i))
}

// Are there more than 8 operands, or is a name or a register of one beyond its limit?
fn group_beyond(g: Operands, counts: Counts) -> bool
    requires { Roomy g }
    ensures { result ≡ group_over counts g }
{
    let count = g.count;
    if MAX_OPERANDS < count {
        return true;
    }
    g.operands[..count]
        .iter()
        .any(|&operand| operand_beyond(operand, counts))
}

fn operand_beyond(operand: OperandCodes, counts: Counts) -> bool
    ensures { result ≡ operand_beyond (counted counts) (operand_meant operand) }
{
    let register = operand.register;
    name_beyond(operand.name, counts) | ((register < NO_ALLOCATION) & (counts.regs <= register))
}

// Does a name stand twice?
fn name_repeated(operands: &[OperandCodes]) -> bool
    ensures { result ≡ repeats ℕ_discrete (map name_code operands.now) }
{
    for (i, operand) in operands.iter().enumerate() {
        let name = operand.name;
        if operands[i + 1..].iter().any(|other| other.name == name) {
            return true;
        }
    }
    false
}

// Does a register stand twice? Operands with none play no part.
fn register_repeated(operands: &[OperandCodes]) -> bool
    ensures { result ≡ repeats ℕ_discrete (below 100000 (map register_code operands.now)) }
{
    for (i, operand) in operands.iter().enumerate() {
        let register = operand.register;
        if (register < NO_ALLOCATION)
            && operands[i + 1..]
                .iter()
                .any(|other| other.register == register)
        {
            return true;
        }
    }
    false
}

// Is a real name mapped to another register or to none?
fn any_elsewhere(g: Operands) -> bool
    requires { Roomy g × (g.count ≤ max_operands) }
    ensures { result ≡ any (λ u. elsewhere u.name u.reg) (held g) }
{
    g.operands[..g.count]
        .iter()
        .any(|operand| is_elsewhere(operand.name, operand.register))
}

pub fn is_elsewhere(name: u32, register: u32) -> bool
    ensures { result ≡ elsewhere (name_of_code name) (register_of_code register) }
{
    if name < REAL {
        return false;
    }
    if register < NO_ALLOCATION {
        register != name - REAL
    } else {
        true
    }
}

// An operation whose form is good, held against the conditions.
fn judge_operation(
    inst: u32,
    uses: Operands,
    defs: Operands,
    counts: Counts,
    place: Place,
) -> Result<(), Breach>
    requires { Roomy uses × Roomy defs }
    ensures value { (so : Option Sheet) (us : List Operand) (ds : List Operand) → ((x : Step) → Placed so (step_record x) place) → Counted (so_far_of so) counts → OperandsKept us uses → OperandsKept ds defs → result ≡ judged_of (first_holding (conditions so (step_record (operation inst us ds)))) }
    ensures clear { OperationWithin counts place inst uses defs result }
{
    let beyond = (MAX_INST < inst) | (group_beyond(uses, counts) | group_beyond(defs, counts));
    if beyond {
        return lowest(place, beyond, false, false, false);
    }
    let used = &uses.operands[..uses.count];
    let defined = &defs.operands[..defs.count];
    let disorder = name_repeated(used) | (name_repeated(defined) | register_repeated(defined));
    let elsewhere = any_elsewhere(uses) | any_elsewhere(defs);
    lowest(place, beyond, disorder, elsewhere, false)
}

fn register_word(register: u32) -> u16
    requires { register_word register < 64 }
    ensures { result ≡ register_word register }
{
    if register < NO_ALLOCATION {
        register as u16
    } else {
        NO_REGISTER
    }
}

fn mark_word(typed: &[u16], name: u32) -> u16
    requires { length typed.now ≡ typed_words }
    ensures { result ≡ mark_word typed.now name }
{
    if is_typed(typed, name) { MARK } else { 0 }
}

// An operand in one word: its register, or NO_REGISTER, before the mark and the name as a packed cell has them.
fn operand_word(operand: OperandCodes, typed: &[u16]) -> u16
    requires { (length typed.now ≡ typed_words) × Small operand }
    ensures { result ≡ word typed.now operand }
{
    register_word(operand.register) * REGISTER
        + mark_word(typed, operand.name)
        + name_word(operand.name)
}

// The words of a group, from `from` on.
fn pack(
    words: [u16; OPERAND_WORDS],
    from: usize,
    g: Operands,
    typed: &[u16],
) -> [u16; OPERAND_WORDS]
    requires { (length typed.now ≡ typed_words) × (from + g.count ≤ operand_words) × (g.count ≤ max_operands) × ((k : ℕ) → k < g.count → Small (get_or g.operands k no_codes)) }
    ensures { result ≡ over from g.count (λ k x. word typed.now (get_or g.operands k no_codes)) words }
{
    let mut out = words;
    for (i, &operand) in g.operands[..g.count].iter().enumerate() {
        out[from + i] = operand_word(operand, typed);
    }
    out
}

// `O inst n (name reg)*n m (name reg)*m`: the uses' words stand at 0, the defs' at DEFS_FROM.
pub fn operation_line(
    s: &[u8],
    at: usize,
    place: Place,
    counts: Counts,
    typed: &[u16],
) -> Result<OperationLine, Breach>
    requires { Behind s.now at × (length typed.now ≡ typed_words) × CountsWithin counts }
    ensures result_value { (so : Option Sheet) → ((x : Step) → Placed so (step_record x) place) → Counted (so_far_of so) counts → operation_line result ≡ told so (line_end s.now at) (operation_of (fields_behind s.now at)) }
    ensures clear { OperationClear s.now place counts typed.now result }
{
    let Some((inst, first)) = number_behind(s, at) else {
        return Err(Breach { number: ILL_FORMED });
    };
    let Some((uses, middle)) = read_operands(s, first) else {
        return Err(Breach { number: ILL_FORMED });
    };
    let Some((defs, next)) = read_operands(s, middle) else {
        return Err(Breach { number: ILL_FORMED });
    };
    if s[next] != b'\n' {
        return Err(Breach { number: ILL_FORMED });
    }
    judge_operation(inst, uses, defs, counts, place)?;
    let words = pack([0u16; OPERAND_WORDS], 0, uses, typed);
    Ok(OperationLine {
        inst: inst as u16,
        n: uses.count,
        m: defs.count,
        next,
        operands: pack(words, DEFS_FROM, defs, typed),
    })
}

// The slots with one more.
fn list_slot(listed: Listed, slot: u32, slots: u32) -> Listed
    requires { (slots ≤ max_slots) × (listed.mask < 2 ^ listed.least) }
    ensures { (done : List ℕ) → Listing slots done listed → Listing slots (done ++ (slot ∷ [])) result }
{
    let mut more = listed;
    if slots <= slot {
        more.beyond = true;
        return more;
    }
    if slot < listed.least {
        more.disorder = true;
        return more;
    }
    more.mask = listed.mask + (1 << slot);
    more.least = slot + 1;
    more
}

// All that is left of a `P`, as slots.
fn read_slots(s: &[u8], at: usize, slots: u32) -> Option<(Listed, usize)>
    requires { Behind s.now at × (slots ≤ max_slots) }
    ensures { SlotsRead s.now at slots result }
{
    let mut listed = Listed {
        beyond: false,
        disorder: false,
        mask: 0,
        least: 0,
    };
    let mut i = at;
    while s[i] != b'\n' {
        let (slot, next) = number_behind(s, i)?;
        listed = list_slot(listed, slot, slots);
        i = next;
    }
    Some((listed, i))
}

// `P inst slot..`: the mask has a bit for each slot listed.
pub fn safepoint_line(
    s: &[u8],
    at: usize,
    place: Place,
    counts: Counts,
) -> Result<SafepointLine, Breach>
    requires { Behind s.now at × CountsWithin counts }
    ensures result_value { (so : Option Sheet) → ((x : Step) → Placed so (step_record x) place) → Counted (so_far_of so) counts → safepoint_line result ≡ told so (line_end s.now at) (safepoint_of (fields_behind s.now at)) }
    ensures clear { SafepointClear s.now place counts.slots result }
{
    let Some((inst, first)) = number_behind(s, at) else {
        return Err(Breach { number: ILL_FORMED });
    };
    let Some((listed, next)) = read_slots(s, first, counts.slots) else {
        return Err(Breach { number: ILL_FORMED });
    };
    let beyond = (MAX_INST < inst) | listed.beyond;
    lowest(place, beyond, listed.disorder, false, false)?;
    Ok(SafepointLine {
        inst: inst as u16,
        mask: listed.mask,
        next,
    })
}
