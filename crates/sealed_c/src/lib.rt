// The checker with a sealed report for C: the static library libsealed.a is made of this crate.

#![tactic(auto)]

ghost use Rattle.checker.specs.Checked.{lent};
ghost use Rattle.sealed.specs.Sealed.{ExportedSealed};

use checker::Verdict;

// `check_sealed`: under the old rule where `rule` is 0, else under the house rule.
#[unsafe(no_mangle)]
pub extern "C" fn itanropen_check_sealed(
    rule: u64,
    sheet: &[u8],
    report: &mut [u8],
    words: &mut [u16],
    queue: &mut [u8],
) -> Verdict
    ensures { ExportedSealed rule sheet.now (lent report.old words.old queue.old) (lent report.new words.new queue.new) result }
{
    sealed::itanropen_check_sealed(rule, sheet, report, words, queue)
}
