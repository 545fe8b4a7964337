// The loading and the writing of sheets for C: the static library libwriter.a is made of this crate.

#![tactic(auto)]

ghost use Rattle.writer.specs.Form.{WriteExported};
ghost use Rattle.writer.specs.Load.{LoadExported};

use writer::{LoadVerdict, WriteVerdict};

// `load_sheet`.
#[unsafe(no_mangle)]
pub extern "C" fn itanropen_load(sheet: &[u8], words: &mut [u16]) -> LoadVerdict
    ensures { LoadExported sheet.now words.old words.new result }
{
    writer::itanropen_load(sheet, words)
}

// `write_sheet`.
#[unsafe(no_mangle)]
pub extern "C" fn itanropen_write(words: &[u16], out: &mut [u8]) -> WriteVerdict
    ensures { WriteExported words.now out.old out.new result }
{
    writer::itanropen_write(words, out)
}
