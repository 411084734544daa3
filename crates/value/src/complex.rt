// Complex numbers of two floats of 32 bits.
ghost use Rattle.value.specs.Complexes.{complex_code, complex_of, parts_fit};
ghost use Rattle.value.specs.Components.{complexes_of};
ghost use Rattle.value.specs.Paired as paired;

use crate::binary32::Binary32;
use crate::kind::Kind;
use choices::Format;
use fault::Fault;

// The real part first, as in the code.
#[derive(Clone, Copy, Debug, PartialEq)]
pub struct Complex {
    pub re: f32,
    pub im: f32,
}

pub enum ComplexBinary32 {}

impl Kind for ComplexBinary32 {
    type Value = Complex;

    ghost accepts = { complexes_of 64 };

    ghost held = { parts_fit };

    ghost encodes = { complex_code };

    ghost decodes = { complex_of };

    ghost back = { paired.back };

    ghost again = { paired.again };

    fn takes(format: Format, depth: u16) -> bool {
        format == Format::Complex && depth == 64
    }

    #[tactic(auto, using(crate::proofs::Parts::joined))]
    fn encode(value: Complex) -> Result<u64, Fault> {
        let re = Binary32::encode(value.re)?;
        let im = Binary32::encode(value.im)?;
        Ok(re << 32 | im)
    }

    fn decode(code: u64) -> Result<Complex, Fault> {
        let re = Binary32::decode(code >> 32)?;
        let im = Binary32::decode(code & 0xffff_ffff)?;
        Ok(Complex { re, im })
    }
}
