// The checker for C: the static library libchecker.a is made of this crate.

#![tactic(auto)]

ghost use Rattle.checker.specs.Checked.{lent, Exported};

use checker::Verdict;

// `check`: under the old rule where `rule` is 0, else under the house rule.
#[unsafe(no_mangle)]
pub extern "C" fn itanropen_check(
    rule: u64,
    sheet: &[u8],
    report: &mut [u8],
    words: &mut [u16],
    queue: &mut [u8],
) -> Verdict
    ensures { Exported rule sheet.now (lent report.old words.old queue.old) (lent report.new words.new queue.new) result }
{
    checker::itanropen_check(rule, sheet, report, words, queue)
}
