// A kind of one's own, as docs/VALUES.md has it: a flag in one bit.
ghost use Rattle.std.specs.Prelude.{Bool};
ghost use Rattle.value_tests.specs.Flags.{one_bit, always, flag_code, flag_of};
ghost use Rattle.value_tests.specs.FlagLaws as law;

use crate::case::{no_value, stands, takes_only};
use choices::Format;
use fault::{Fault, Layer, Reason};
use value::Kind;

enum Flag {}

impl Kind for Flag {
    type Value = bool;

    ghost accepts = { one_bit };

    ghost held = { always };

    ghost encodes = { flag_code };

    ghost decodes = { flag_of };

    ghost back = { law.back };

    ghost again = { law.again };

    fn takes(format: Format, depth: u16) -> bool {
        format == Format::Integer && depth == 1
    }

    fn encode(value: bool) -> Result<u64, Fault> {
        Ok(u64::from(value))
    }

    fn decode(code: u64) -> Result<bool, Fault> {
        match code {
            0 => Ok(false),
            1 => Ok(true),
            _ => Err(Layer::Frame.refuses(Reason::Code, 0)),
        }
    }
}

#[test]
fn flags(rt: HostRuntime) {
    takes_only::<Flag>(&rt, Format::Integer, 1..=1);
    stands::<Flag>(&rt, false, 0);
    stands::<Flag>(&rt, true, 1);
    no_value::<Flag>(&rt, 2, Reason::Code);
}
