// Which layer refused. Each layer has a letter.
ghost use Rattle.std.specs.Prelude.{◌≡◌};
ghost use Rattle.fault.specs.Faults.{letter_of, fault};

use crate::fault::Fault;
use crate::reason::Reason;

#[derive(Clone, Copy, Debug, PartialEq, Eq)]
pub enum Layer {
    // The definition box, `cmpd`.
    DefinitionBox,
    // The configuration box, `uncC`.
    ConfigurationBox,
    // The rules that a configuration keeps.
    Configuration,
    // A frame and the values that it holds.
    Frame,
    // A source or a store of bytes.
    Store,
}

impl Layer {
    // A refusal by this layer.
    pub fn refuses(self, reason: Reason, place: u64) -> Fault
        ensures { result ≡ fault reason self place }
    {
        Fault {
            reason,
            layer: self,
            place,
        }
    }
}

impl From<Layer> for char {
    ghost from_gives = { λ layer letter. letter ≡ letter_of layer };

    fn from(layer: Layer) -> char {
        match layer {
            Layer::DefinitionBox => 'd',
            Layer::ConfigurationBox => 'u',
            Layer::Configuration => 'c',
            Layer::Frame => 'f',
            Layer::Store => 's',
        }
    }
}
