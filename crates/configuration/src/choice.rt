// One of a closed set of choices, read by its number in a byte.
ghost use Rattle.std.specs.Prelude.{◌≡◌, ℕ, Option, Result, ok_or};
ghost use Rattle.choices.specs.Choices.{format_of, sampling_of, interleave_of};
ghost use Rattle.choices.specs.Flags.{flags_of};
ghost use Rattle.choices.specs.declared.reserved.Reserved.{Reserved};
ghost use Rattle.configuration.specs.Chosen.{choice_by};

use choices::{Flags, Format, Interleave, Reserved, Sampling};
use fault::{Fault, Reason};
use fields::Reader;

pub(crate) trait Choice: TryFrom<u8, Error = Reserved> {
    // The choice that has a number.
    ghost of: { ℕ → Option Self };

    ghost tells: { (number : ℕ) (r : Result Self Reserved) → Self.try_from_gives number r → r ≡ ok_or (of number) (record { 0 = number }) };
}

impl Choice for Format {
    ghost of = { format_of };

    ghost tells = { λ _ _ h. h };
}

impl Choice for Sampling {
    ghost of = { sampling_of };

    ghost tells = { λ _ _ h. h };
}

impl Choice for Interleave {
    ghost of = { interleave_of };

    ghost tells = { λ _ _ h. h };
}

impl Choice for Flags {
    ghost of = { flags_of };

    ghost tells = { λ _ _ h. h };
}

pub(crate) fn choice_at<C: Choice>(reader: Reader, at: usize) -> Result<C, Fault>
    ensures { result ≡ choice_by C.of reader.entry.layer reader.entry.bytes.now at }
{
    // A match: of a closure under `map_err` the proof here lacks which refusal it answers.
    match C::try_from(reader.byte(at)?) {
        Ok(choice) => Ok(choice),
        Err(_) => Err(reader.refuses(Reason::Reserved, at)),
    }
}
