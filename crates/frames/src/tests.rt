// What no clause can say of `frames`: the words on standard error.

use super::*;
use std::cell::Cell;
use std::fmt::{Display, InlineText};

// A standard error that keeps the first 256 bytes of what is told.
#[derive(Drop)]
struct Told {
    text: Cell<InlineText<256>>,
}

impl Eprint for Told {
    fn eprint<D: Display + Drop>(&self, value: D) -> io::Result<()> {
        self.text.set(self.text.get().and(value, 256));
        Ok(())
    }

    fn eprintln<D: Display + Drop>(&self, value: D) -> io::Result<()> {
        self.eprint(format_args!("{value}\n"))
    }
}

#[test]
fn each_end_is_explained_in_its_words(rt: HostRuntime) {
    let told = Told {
        text: Cell::new(InlineText::new()),
    };
    let too_long = io::Error::new(ErrorKind::InvalidInput, "too long a text");
    explain(&told, "pairs", Ok(()));
    explain(&told, "seals", Err(Malformed.into()));
    explain(&told, "stream", Err(ErrorKind::InvalidData.into()));
    explain(&told, "a program", Err(ErrorKind::StorageFull.into()));
    explain(&told, "writes", Err(ErrorKind::BrokenPipe.into()));
    explain(&told, "forms", Err(too_long));
    assert_eq!(rt;
        told.text.get().as_str(),
        "seals: malformed frame\n\
        stream: invalid data\n\
        a program: standard output: no storage space\n\
        writes: standard output: broken pipe\n\
        forms: standard output: too long a text\n"
    );
}
