// The checker: a sheet, a rule and three lent buffers in; one of three answers out.

#![tactic(auto)]

ghost use Rattle.std.specs.Prelude.{◌≡◌, ◌≤◌, length};
ghost use Rattle.lists.specs.Sets.{Wrote};
ghost use Rattle.paper.specs.Limits.{report_size, words_size, queue_size};
ghost use Rattle.paper.specs.Report.{entries};
ghost use Rattle.paper.specs.Answer as paper_answer;
ghost use Rattle.loaded.specs.Loaded.{sheet_of, Loaded};
ghost use Rattle.checker.specs.Checked.{lent, Few, refusal_text, RefusalWithin, Answered, Checked, Stated, rule_of, Exported};

use layout::{QUEUE_SIZE, REPORT_SIZE, WORDS_SIZE};
use paper::{Answer, Refusal, Rule, TOO_SHORT};

// An answer over the C interface: 0 accepted, 1 faulty, 2 refused; the report's length; the refusal's number, line and field.
#[repr(C)]
#[derive(Clone, Copy)]
pub struct Verdict {
    pub answer: u8,
    pub number: u8,
    pub length: usize,
    pub line: usize,
    pub field: usize,
}

// The report of loaded words, written to the start of the lent report.
fn write_faults(rule: Rule, words: &mut [u16], queue: &mut [u8], report: &mut [u8]) -> Answer
    requires { Loaded words.old × Few words.old × (report_size ≤ length report.old) × (words_size ≤ length words.old) × (queue_size ≤ length queue.old) }
    ensures { Answered (paper_answer.said_of rule (entries rule (sheet_of words.old))) report.old words.old queue.old report.new words.new queue.new result }
{
    if let Some(missing) = faults::find_missing(words) {
        return faults::write_missing(rule, words, report, missing);
    }
    runs::analyze(rule, words, queue);
    faults::write_errors(rule, words, report)
}

// The answer to a sheet, where the buffers are large enough; the scratch is left as it falls.
fn answer(
    rule: Rule,
    sheet: &[u8],
    report: &mut [u8],
    words: &mut [u16],
    queue: &mut [u8],
) -> Answer
    requires { (report_size ≤ length report.old) × (words_size ≤ length words.old) × (queue_size ≤ length queue.old) }
    ensures { Answered (paper_answer.answer rule sheet.now) report.old words.old queue.old report.new words.new queue.new result }
{
    match sheet::load(sheet, words) {
        Ok(()) => write_faults(rule, words, queue, report),
        Err(refusal) => Answer::Refused(refusal),
    }
}

// Refusal 1: the report is shorter than `size`, or a scratch buffer than its published size.
pub fn too_short(size: usize, report: &[u8], words: &[u16], queue: &[u8]) -> bool
    ensures { result ≡ paper_answer.too_short size (lent report.now words.now queue.now) }
{
    if report.len() < size {
        return true;
    }
    if words.len() < WORDS_SIZE {
        return true;
    }
    queue.len() < QUEUE_SIZE
}

// Checks a sheet under a rule. Refusal 1 changes nothing; any other answer leaves the scratch all zero; a refusal leaves the
// report as it was, and otherwise the report's text stands at its start and later bytes keep their values.
pub fn check(
    rule: Rule,
    sheet: &[u8],
    report: &mut [u8],
    words: &mut [u16],
    queue: &mut [u8],
) -> Answer
    ensures { Checked rule sheet.now (lent report.old words.old queue.old) (lent report.new words.new queue.new) result }
{
    if too_short(REPORT_SIZE, report, words, queue) {
        return Answer::Refused(Refusal {
            number: TOO_SHORT,
            line: 0,
            field: 0,
        });
    }
    let said = answer(rule, sheet, report, words, queue);
    scratch::clear(words);
    scratch::clear(queue);
    said
}

// `X number line field` at the start of the lent report: its length.
fn write_refusal(report: &mut [u8], refusal: Refusal) -> usize
    requires { RefusalWithin refusal × (report_size ≤ length report.old) }
    ensures { Wrote report.old 0 (refusal_text refusal) report.new result }
{
    let a = fields::write_byte(report, 0, b'X');
    let b = fields::write_before_number(report, a, b'\t', refusal.number as u32);
    let c = fields::write_before_number(report, b, b'\t', refusal.line as u32);
    let d = fields::write_before_number(report, c, b'\t', refusal.field as u32);
    fields::write_byte(report, d, b'\n')
}

// What a program writes of the answer, at the start of the lent report: the report, or `X number line field`. Its length is
// returned; where refusal 1 is given nothing changes, and the length is 0.
pub fn answer_text(
    rule: Rule,
    sheet: &[u8],
    report: &mut [u8],
    words: &mut [u16],
    queue: &mut [u8],
) -> usize
    ensures { Stated report_size (paper_answer.written (paper_answer.answer rule sheet.now)) (lent report.old words.old queue.old) (lent report.new words.new queue.new) result }
{
    let said = check(rule, sheet, report, words, queue);
    match said {
        Answer::Accepted(length) => length,
        Answer::Faulty(length) => length,
        Answer::Refused(refusal) => {
            if refusal.number == TOO_SHORT {
                0
            } else {
                write_refusal(report, refusal)
            }
        }
    }
}

impl From<Answer> for Verdict {
    ghost use Rattle.std.specs.Prelude.{◌≡◌};
    ghost use Rattle.checker.specs.Checked.{verdict_of};

    ghost from_gives = { λ said verdict. verdict ≡ verdict_of said };

    #[tactic(auto, unfolding(crate::specs::Checked::verdict_of))]
    fn from(said: Answer) -> Verdict {
        match said {
            Answer::Accepted(length) => Verdict {
                answer: 0,
                number: 0,
                length,
                line: 0,
                field: 0,
            },
            Answer::Faulty(length) => Verdict {
                answer: 1,
                number: 0,
                length,
                line: 0,
                field: 0,
            },
            Answer::Refused(refusal) => Verdict {
                answer: 2,
                number: refusal.number,
                length: 0,
                line: refusal.line,
                field: refusal.field,
            },
        }
    }
}

// The rule by its number over the C interface: 0 is the old rule, and every other number the house rule.
pub fn rule_of(number: u64) -> Rule
    ensures { result ≡ rule_of number }
{
    if number == 0 { Rule::Old } else { Rule::House }
}

// `check` for C and Rust: under the old rule where `rule` is 0, else under the house rule.
#[unsafe(no_mangle)]
pub extern "C" fn itanropen_check(
    rule: u64,
    sheet: &[u8],
    report: &mut [u8],
    words: &mut [u16],
    queue: &mut [u8],
) -> Verdict
    ensures { Exported rule sheet.now (lent report.old words.old queue.old) (lent report.new words.new queue.new) result }
{
    let chosen = rule_of(rule);
    let said = check(chosen, sheet, report, words, queue);
    Verdict::from(said)
}
