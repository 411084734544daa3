// Values of the boxes as text.
ghost use Rattle.std.specs.Prelude.{◌≤◌, Decides};

use std::fmt;

// A number of bytes, of which 0 says that there is none.
#[derive(Clone, Copy)]
pub(crate) struct Bytes(pub(crate) u64);

impl fmt::Display for Bytes {
    fn fmt<W: fmt::Write>(&self, f: &mut fmt::Formatter<W>) -> fmt::Result {
        let count = self.0;
        match count {
            0 => write!(f, "none"),
            1 => write!(f, "1 byte"),
            _ => write!(f, "{count} bytes"),
        }
    }
}

// Where a value stands: bit by bit after the one before, or in a word of its own.
#[derive(Clone, Copy)]
pub(crate) struct Alignment(pub(crate) u8);

impl fmt::Display for Alignment {
    fn fmt<W: fmt::Write>(&self, f: &mut fmt::Formatter<W>) -> fmt::Result {
        let word = Bytes(u64::from(self.0));
        match self.0 {
            0 => write!(f, "packed"),
            _ => write!(f, "word of {word}"),
        }
    }
}

// Text of which nobody promises that it is text. A byte that is not printable ASCII is shown by its number,
// and a backslash too, so that no two texts look the same.
#[derive(Clone, Copy)]
pub(crate) struct Escaped<'a>(pub(crate) &'a [u8]);

impl fmt::Display for Escaped<'_> {
    fn fmt<W: fmt::Write>(&self, f: &mut fmt::Formatter<W>) -> fmt::Result {
        // The library's escape_ascii has shorter forms, such as \n, where each byte here is shown by its number.
        for &byte in self.0 {
            if is_printable(byte) && byte != b'\\' {
                let letter = char::from(byte);
                write!(f, "{letter}")?;
            } else {
                write!(f, "\\x{byte:02x}")?;
            }
        }
        Ok(())
    }
}

// A profile word: four letters, or else a number, of which 0 says that there is none.
#[derive(Clone, Copy)]
pub(crate) struct Word(pub(crate) u32);

impl fmt::Display for Word {
    fn fmt<W: fmt::Write>(&self, f: &mut fmt::Formatter<W>) -> fmt::Result {
        let word = self.0;
        let letters = word.to_be_bytes();
        if word == 0 {
            write!(f, "none")
        } else if letters.iter().all(|&letter| is_printable(letter)) {
            let [a, b, c, d] = letters.map(char::from);
            write!(f, "'{a}{b}{c}{d}'")
        } else {
            write!(f, "{word:#010x}")
        }
    }
}

// A space to a tilde.
fn is_printable(byte: u8) -> bool
    ensures { Decides result ((32 ≤ byte) × (byte ≤ 126)) }
{
    matches!(byte, b' '..=b'~')
}
