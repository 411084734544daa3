// Whole numbers, each its own code. Whether one has room in a component's depth is for the frame to say.
ghost use Rattle.std.specs.Prelude.{◌^◌, ◌<◌, Ok};
ghost use Rattle.value.specs.Components.{integers};
ghost use Rattle.std.proofs.Common.{sym};

use crate::kind::Kind;
use choices::Format;
use fault::Fault;

pub enum Whole {}

impl Kind for Whole {
    type Value = u64;

    ghost accepts = { integers };

    ghost held = { λ n. n < 2 ^ 64 };

    ghost encodes = { λ n. Ok n };

    ghost decodes = { λ n. Ok n };

    ghost back = { λ v n fit h. sym h };

    ghost again = { λ n v small h. sym h };

    fn takes(format: Format, depth: u16) -> bool {
        format == Format::Integer && (1..=64).contains(&depth)
    }

    fn encode(value: u64) -> Result<u64, Fault> {
        Ok(value)
    }

    fn decode(code: u64) -> Result<u64, Fault> {
        Ok(code)
    }
}
