// Writing a report: its letters and fields, an `E` line, an `N` line, the header, each at a place of a lent buffer.

#![tactic(auto)]

ghost use Rattle.std.specs.Prelude.{◌≡◌, ◌∷◌, ◌+◌, ◌≤◌, ◌<◌, length};
ghost use Rattle.lists.specs.Sets.{Wrote};
ghost use Rattle.paper.specs.Text.{tab, digits, name_text};
ghost use Rattle.paper.specs.Limits.{max_blocks, report_size};
ghost use Rattle.paper.specs.Report.{behind_tabs, unreached_text, rule_text, header_text};
ghost use Rattle.cells.specs.Packed.{name_of_word};
ghost use Rattle.fields.specs.Fields.{named};
ghost use Rattle.report.specs.Lines.{field_text, field_texts, fields_line, PositionWithin};

use cells::MARK;
use fields::Name;
use paper::Rule;

const REAL_NAMES: u32 = cells::REAL_NAMES as u32;

// A field of an `E` line: `rN`, `sN`, or a name's nine bits.
#[derive(Clone, Copy)]
pub enum Field {
    Register(u32),
    Slot(u32),
    Named(u16),
}

// Where a fault stands: its step's block, place there and inst.
#[derive(Clone, Copy)]
pub struct Position {
    pub block: usize,
    pub place: usize,
    pub inst: u16,
}

// The fields of an `E` line behind its inst; one that is not there is a `-`.
#[derive(Clone, Copy)]
pub struct FaultFields {
    pub kind: u32,
    pub location: Option<Field>,
    pub expected: Option<Field>,
    pub actual: Option<Field>,
}

// The name in the nine low bits of a word.
fn unpacked_name(w: u16) -> Name
    ensures { named result ≡ name_of_word w }
{
    let name = (w % MARK) as u32;
    if name < REAL_NAMES {
        Name::Virtual(name)
    } else {
        Name::Real(name - REAL_NAMES)
    }
}

// The same as text.
pub fn write_packed_name(report: &mut [u8], at: usize, w: u16) -> usize
    requires { at + length (name_text (name_of_word w)) ≤ length report.old }
    ensures { Wrote report.old at (name_text (name_of_word w)) report.new result }
{
    fields::write_name(report, at, unpacked_name(w))
}

// A tab and a field, or `-`.
fn write_field(report: &mut [u8], at: usize, field: Option<Field>) -> usize
    requires { at + length (tab ∷ field_text field) ≤ length report.old }
    ensures { Wrote report.old at (tab ∷ field_text field) report.new result }
{
    let next = fields::write_byte(report, at, b'\t');
    let Some(field) = field else {
        return fields::write_byte(report, next, b'-');
    };
    match field {
        Field::Register(n) => fields::write_before_number(report, next, b'r', n),
        Field::Slot(n) => fields::write_before_number(report, next, b's', n),
        Field::Named(w) => write_packed_name(report, next, w),
    }
}

// The fields of a line behind its inst, and its end.
fn write_fields(report: &mut [u8], at: usize, fault: FaultFields) -> usize
    requires { at + length (behind_tabs (digits fault.kind ∷ field_texts fault)) ≤ length report.old }
    ensures { Wrote report.old at (behind_tabs (digits fault.kind ∷ field_texts fault)) report.new result }
{
    let location = fault.location;
    let expected = fault.expected;
    let actual = fault.actual;
    let a = fields::write_before_number(report, at, b'\t', fault.kind);
    let b = write_field(report, a, location);
    let c = write_field(report, b, expected);
    let d = write_field(report, c, actual);
    fields::write_byte(report, d, b'\n')
}

// An `E` line.
pub fn write_line(report: &mut [u8], at: usize, position: Position, fault: FaultFields) -> usize
    requires { PositionWithin position × (at + length (fields_line position fault) ≤ length report.old) }
    ensures { Wrote report.old at (fields_line position fault) report.new result }
{
    let a = fields::write_byte(report, at, b'E');
    let b = fields::write_before_number(report, a, b'\t', position.block as u32);
    let c = fields::write_before_number(report, b, b'\t', position.place as u32);
    let d = fields::write_before_number(report, c, b'\t', position.inst as u32);
    write_fields(report, d, fault)
}

// An `N` line.
pub fn write_unreached(report: &mut [u8], at: usize, block: usize) -> usize
    requires { (block < max_blocks) × (at + length (unreached_text block) ≤ length report.old) }
    ensures { Wrote report.old at (unreached_text block) report.new result }
{
    let a = fields::write_byte(report, at, b'N');
    let b = fields::write_before_number(report, a, b'\t', block as u32);
    fields::write_byte(report, b, b'\n')
}

// `old` or `house`.
fn write_rule(report: &mut [u8], at: usize, rule: Rule) -> usize
    requires { at + length (rule_text rule) ≤ length report.old }
    ensures { Wrote report.old at (rule_text rule) report.new result }
{
    match rule {
        Rule::Old => fields::write_text(report, at, b"old"),
        Rule::House => fields::write_text(report, at, b"house"),
    }
}

// The header: the rule, and the count of the faults that follow.
pub fn write_header(report: &mut [u8], at: usize, rule: Rule, count: usize) -> usize
    requires { (count ≤ report_size) × (at + length (header_text rule count) ≤ length report.old) }
    ensures { Wrote report.old at (header_text rule count) report.new result }
{
    let a = fields::write_byte(report, at, b'R');
    let b = fields::write_byte(report, a, b'\t');
    let c = write_rule(report, b, rule);
    let d = fields::write_before_number(report, c, b'\t', count as u32);
    fields::write_byte(report, d, b'\n')
}
