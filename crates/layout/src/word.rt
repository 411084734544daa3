// Where a value lies: some bytes, and in them a run of bits.
ghost use Rattle.std.specs.Prelude.{◌≡◌, ◌+◌, ◌-◌, ◌/◌, ◌%◌, ◌^◌, ◌<◌, ◌≤◌};
ghost use Rattle.layout.specs.Words.{word_in};
ghost use Rattle.placement.specs.Line.{moved};
ghost use Rattle.placement.specs.Word.{Whole, spot};

use crate::units::whole_bytes;
use plans::{Bits, Bytes};

#[derive(Clone, Copy)]
pub(crate) struct Word {
    pub first: Bytes,
    pub size: Bytes,
    pub little: bool,
    pub low: Bits,
    pub depth: Bits,
}

impl Word {
    // The same word, so many bytes further on.
    pub(crate) fn moved(self, by: Bytes) -> Word
        requires { by.0 + self.first.0 < 2 ^ 64 }
        ensures { word_in result ≡ moved by.0 (word_in self) }
    {
        Word {
            first: Bytes(by.0 + self.first.0),
            ..self
        }
    }

    // The byte that holds bit `bit` of the value, and the number of that bit in it. Bit 0 of a value is its highest,
    // and bit 7 of a byte.
    pub(crate) fn bit_place(self, bit: Bits) -> (Bytes, u8)
        requires whole { Whole (word_in self) }
        requires inside { bit.0 < self.depth.0 }
        requires low { self.first.0 ≤ 2 ^ 40 }
        requires small { self.size.0 ≤ 9 }
        ensures byte { result.0.0 ≡ spot (word_in self) bit.0 / 8 }
        ensures bit { result.1 ≡ 7 - spot (word_in self) bit.0 % 8 }
        ensures low { result.1 < 8 }
    {
        let weight = Bits(self.low.0 + (self.depth.0 - 1 - bit.0));
        let above = whole_bytes(weight);
        let byte = if self.little {
            above.0
        } else {
            self.size.0 - 1 - above.0
        };
        (Bytes(self.first.0 + byte), (weight.0 % 8) as u8)
    }
}
