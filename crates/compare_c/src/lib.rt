// The comparison of two reports for C: the static library libcompare.a is made of this crate.

#![tactic(auto)]

ghost use Rattle.std.specs.Prelude.{◌≡◌};
ghost use Rattle.paper.specs.Comparison.{compared};
ghost use Rattle.compare.specs.Places.{judgement_of};

use compare::Judgement;

// Compares two reports.
#[unsafe(no_mangle)]
pub extern "C" fn itanropen_compare(first: &[u8], second: &[u8]) -> Judgement
    ensures { result ≡ judgement_of (compared first.now second.now) }
{
    compare::itanropen_compare(first, second)
}
