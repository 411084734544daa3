// Floats of either width.
ghost use Rattle.std.specs.Prelude.{T};
ghost use Rattle.std.specs.Float.Ieee.{fits};
ghost use Rattle.value.specs.Components.{floats_of};
ghost use Rattle.value.specs.Floats.{float_code, value_of_code};
ghost use Rattle.value.specs.Patterns as pattern;

use crate::kind::Kind;
use crate::pattern::Pattern;
use choices::Format;
use fault::{Fault, Layer, Reason};
use std::marker::PhantomData;

// The kind of the floats F. No value of it is made.
pub struct Binary<F>(PhantomData<F>);

impl<F: Pattern> Kind for Binary<F> {
    type Value = F;

    ghost accepts = { floats_of F.BITS };

    ghost held = { λ x. T (fits F.width (F.float x)) };

    ghost encodes = { λ x. float_code F.width (F.float x) };

    ghost decodes = { value_of_code F.of_float F.room F.width };

    ghost back = { pattern.back F.laws };

    ghost again = { pattern.again F.laws };

    fn takes(format: Format, depth: u16) -> bool {
        format == Format::Float && depth == F::BITS
    }

    fn encode(value: F) -> Result<u64, Fault> {
        if !value.is_number() {
            return Err(Layer::Frame.refuses(Reason::NotANumber, 0));
        }
        Ok(value.to_code())
    }

    #[tactic(auto, using(crate::proofs::Numbers::above))]
    fn decode(code: u64) -> Result<F, Fault> {
        if !F::has_room(code) {
            return Err(Layer::Frame.refuses(Reason::Code, 0));
        }
        if code % F::SIGN > F::INFINITY {
            return Err(Layer::Frame.refuses(Reason::NotANumber, 0));
        }
        Ok(F::of_code(code))
    }
}
