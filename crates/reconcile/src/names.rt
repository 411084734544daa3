// What a person calls the types of components.
ghost use Rattle.std.specs.Prelude.{◌≡◌};
ghost use Rattle.std.specs.Option.{option_map};
ghost use Rattle.reconcile.specs.Names.{standard_name};

use boxes::ComponentType;
use std::fmt;

// A component type of the standard.
fn standard_name(component_type: ComponentType) -> Option<&'static str>
    ensures { option_map (λ x. x.now) result ≡ standard_name component_type }
{
    match component_type {
        ComponentType::Mono => Some("mono"),
        ComponentType::Y => Some("Y"),
        ComponentType::U => Some("U"),
        ComponentType::V => Some("V"),
        ComponentType::R => Some("R"),
        ComponentType::G => Some("G"),
        ComponentType::B => Some("B"),
        ComponentType::Alpha => Some("alpha"),
        ComponentType::Depth => Some("depth"),
        ComponentType::Disparity => Some("disparity"),
        ComponentType::Palette => Some("palette"),
        ComponentType::FilterArray => Some("filter array"),
        ComponentType::Padding => Some("padding"),
        ComponentType::Cyan => Some("cyan"),
        ComponentType::Magenta => Some("magenta"),
        ComponentType::Yellow => Some("yellow"),
        ComponentType::Black => Some("black"),
        ComponentType::Other(_) => None,
    }
}

// The name of a component by its type, where it is defined. A type of the user's own shows its number.
#[derive(Clone, Copy)]
pub(crate) struct Component(pub(crate) Option<ComponentType>);

impl fmt::Display for Component {
    fn fmt<W: fmt::Write>(&self, f: &mut fmt::Formatter<W>) -> fmt::Result {
        let Some(component_type) = self.0 else {
            return f.pad("not defined");
        };
        match standard_name(component_type) {
            Some(name) => f.pad(name),
            None => {
                let number = u16::from(component_type);
                write!(f, "own type {number:#06x}")
            }
        }
    }
}
