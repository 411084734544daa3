// What is answered where a rule is broken.
ghost use Rattle.std.specs.Prelude.{◌≡◌};
ghost use Rattle.fields.specs.Field.{check};
ghost use Rattle.rules.specs.Rules.{broken, broken_at};

use fault::{Fault, Layer, Reason};

// The place of a refusal by a rule, where no single entry is to blame.
pub const NO_ENTRY: u64 = 255;

// A rule on the configuration as a whole.
pub(crate) fn require(kept: bool, reason: Reason) -> Result<(), Fault>
    ensures { result ≡ check kept (broken reason) }
{
    if kept {
        Ok(())
    } else {
        Err(Layer::Configuration.refuses(reason, NO_ENTRY))
    }
}

// The rule is broken by the entry at this position of the list.
pub(crate) fn refused_at(reason: Reason, entry: usize) -> Fault
    ensures { result ≡ broken_at reason entry }
{
    Layer::Configuration.refuses(reason, entry as u64)
}
