// Kinds of values, and what is said once for all of them.
ghost use Rattle.std.specs.Prelude.{◌≡◌, ℕ, ◌^◌, ◌<◌, Bool, Ok, Result};
ghost use Rattle.fault.specs.declared.fault.Fault.{Fault};
ghost use Rattle.choices.specs.declared.choice.Format.{Format};
ghost use Rattle.value.specs.Coded.{unless_refused};
ghost use Rattle.value.specs.Components.{taken_or};

use choices::Format;
use fault::{Fault, Layer, Reason};

// A code is the whole number that the bits of a value spell. A kind of value says which format and depth it takes, and
// turns values into codes and codes into values.
//
// The two laws: a value that has a code comes back from it, and a code that has a value comes back from that.
pub trait Kind {
    type Value;

    // The components that the kind takes, by format and depth.
    ghost accepts: { Format → ℕ → Bool };

    // What every value that a program holds is known to be: a number in a clause has no bounds of its own.
    ghost held: { Self.Value → Type 0 };

    ghost encodes: { Self.Value → Result ℕ Fault };

    ghost decodes: { ℕ → Result Self.Value Fault };

    fn takes(format: Format, depth: u16) -> bool
        ensures { result ≡ accepts format depth };

    fn encode(value: Self::Value) -> Result<u64, Fault>
        ensures answer { result ≡ encodes value }
        ensures held { held value };

    fn decode(code: u64) -> Result<Self::Value, Fault>
        ensures { result ≡ decodes code };

    ghost back: { (v : Self.Value) (n : ℕ) → held v → encodes v ≡ Ok n → decodes n ≡ Ok v };

    ghost again: { (n : ℕ) (v : Self.Value) → n < 2 ^ 64 → decodes n ≡ Ok v → encodes v ≡ Ok n };
}

// Refuses a component that the kind does not take. A component or a value stands alone, so the place of its refusal is 0.
pub fn check_kind<K: Kind>(format: Format, depth: u16) -> Result<(), Fault>
    ensures { result ≡ taken_or (K.Kind.accepts format depth) }
{
    if K::takes(format, depth) {
        Ok(())
    } else {
        Err(Layer::Frame.refuses(Reason::Kind, 0))
    }
}

// From a value to its code and back.
pub fn through_code<K: Kind>(value: K::Value) -> Result<K::Value, Fault>
    ensures { result ≡ unless_refused (K.Kind.encodes value) value }
{
    let code = K::encode(value)?;
    K::decode(code)
}

// From a code to its value and back.
pub fn through_value<K: Kind>(code: u64) -> Result<u64, Fault>
    ensures { result ≡ unless_refused (K.Kind.decodes code) code }
{
    let value = K::decode(code)?;
    K::encode(value)
}
