// The reader of seals for C: the static library libseal.a is made of this crate.

#![tactic(auto)]

ghost use Rattle.std.specs.Prelude.{◌≡◌};
ghost use Rattle.paper.specs.Seal as paper_seal;
ghost use Rattle.seal.specs.Exported.{code_of};

// What the seal at the end of a text comes to: 0 good, 1 a wrong word, 2 no seal line.
#[unsafe(no_mangle)]
pub extern "C" fn itanropen_verify(text: &[u8]) -> u8
    ensures { result ≡ code_of (paper_seal.seal_of text.now) }
{
    seal::itanropen_verify(text)
}
