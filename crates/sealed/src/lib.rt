// The checker's answer with a sealed report: 11 bytes more of report buffer, and otherwise as `checker` has it.

#![tactic(auto)]

ghost use Rattle.std.specs.Prelude.{◌≡◌};
ghost use Rattle.paper.specs.Limits.{sealed_size};
ghost use Rattle.paper.specs.Answer as paper_answer;
ghost use Rattle.paper.specs.Seal as paper_seal;
ghost use Rattle.checker.specs.Checked.{lent, Stated};
ghost use Rattle.sealed.specs.Sealed.{CheckedSealed, ExportedSealed};

use checker::Verdict;
use layout::SEALED_SIZE;
use paper::{Answer, Refusal, Rule, TOO_SHORT};

// Checks a sheet under a rule, and seals the report. Refusal 1 changes nothing, also where the report has no room for the seal; a
// refusal is not sealed; the length is that of the sealed report.
pub fn check_sealed(
    rule: Rule,
    sheet: &[u8],
    report: &mut [u8],
    words: &mut [u16],
    queue: &mut [u8],
) -> Answer
    ensures { CheckedSealed rule sheet.now (lent report.old words.old queue.old) (lent report.new words.new queue.new) result }
{
    if checker::too_short(SEALED_SIZE, report, words, queue) {
        return Answer::Refused(Refusal {
            number: TOO_SHORT,
            line: 0,
            field: 0,
        });
    }
    let said = checker::check(rule, sheet, report, words, queue);
    match said {
        Answer::Accepted(length) => {
            let end = seal::write_seal(report, length);
            Answer::Accepted(end)
        }
        Answer::Faulty(length) => {
            let end = seal::write_seal(report, length);
            Answer::Faulty(end)
        }
        Answer::Refused(refusal) => Answer::Refused(refusal),
    }
}

// What a program writes of the sealed answer, at the start of the lent report: the sealed report, or `X number line field`. Its length is
// returned; where refusal 1 is given nothing changes, and the length is 0.
pub fn sealed_text(
    rule: Rule,
    sheet: &[u8],
    report: &mut [u8],
    words: &mut [u16],
    queue: &mut [u8],
) -> usize
    ensures { Stated sealed_size (paper_answer.written (paper_seal.sealed_said (paper_answer.answer rule sheet.now))) (lent report.old words.old queue.old) (lent report.new words.new queue.new) result }
{
    let short = checker::too_short(SEALED_SIZE, report, words, queue);
    if short {
        return 0;
    }
    let said = check_sealed(rule, sheet, report, words, queue);
    match said {
        Answer::Accepted(length) => length,
        Answer::Faulty(length) => length,
        // A refusal is not sealed: it is written as without a seal.
        Answer::Refused(refusal) => checker::answer_text(rule, sheet, report, words, queue),
    }
}

// `check_sealed` for C and Rust: under the old rule where `rule` is 0, else under the house rule.
#[unsafe(no_mangle)]
pub extern "C" fn itanropen_check_sealed(
    rule: u64,
    sheet: &[u8],
    report: &mut [u8],
    words: &mut [u16],
    queue: &mut [u8],
) -> Verdict
    ensures { ExportedSealed rule sheet.now (lent report.old words.old queue.old) (lent report.new words.new queue.new) result }
{
    let chosen = checker::rule_of(rule);
    let said = check_sealed(chosen, sheet, report, words, queue);
    Verdict::from(said)
}
