// What the values of a component are.
ghost use Rattle.std.specs.Prelude.{◌≡◌};
ghost use Rattle.choices.specs.ComponentTypes.{type_numbered, type_number};

#[derive(Clone, Copy, Debug, PartialEq, Eq)]
pub enum ComponentType {
    Mono,
    Y,
    U,
    V,
    R,
    G,
    B,
    Alpha,
    Depth,
    Disparity,
    Palette,
    FilterArray,
    Padding,
    Cyan,
    Magenta,
    Yellow,
    Black,
    // None of the standard's: from 0x8000 on the user's own, and below that reserved.
    Other(u16),
}

impl From<u16> for ComponentType {
    ghost from_gives = { λ number component_type. component_type ≡ type_numbered number };

    fn from(number: u16) -> ComponentType {
        match number {
            0 => ComponentType::Mono,
            1 => ComponentType::Y,
            2 => ComponentType::U,
            3 => ComponentType::V,
            4 => ComponentType::R,
            5 => ComponentType::G,
            6 => ComponentType::B,
            7 => ComponentType::Alpha,
            8 => ComponentType::Depth,
            9 => ComponentType::Disparity,
            10 => ComponentType::Palette,
            11 => ComponentType::FilterArray,
            12 => ComponentType::Padding,
            13 => ComponentType::Cyan,
            14 => ComponentType::Magenta,
            15 => ComponentType::Yellow,
            16 => ComponentType::Black,
            _ => ComponentType::Other(number),
        }
    }
}

impl From<ComponentType> for u16 {
    ghost from_gives = { λ component_type number. number ≡ type_number component_type };

    fn from(component_type: ComponentType) -> u16 {
        match component_type {
            ComponentType::Mono => 0,
            ComponentType::Y => 1,
            ComponentType::U => 2,
            ComponentType::V => 3,
            ComponentType::R => 4,
            ComponentType::G => 5,
            ComponentType::B => 6,
            ComponentType::Alpha => 7,
            ComponentType::Depth => 8,
            ComponentType::Disparity => 9,
            ComponentType::Palette => 10,
            ComponentType::FilterArray => 11,
            ComponentType::Padding => 12,
            ComponentType::Cyan => 13,
            ComponentType::Magenta => 14,
            ComponentType::Yellow => 15,
            ComponentType::Black => 16,
            ComponentType::Other(number) => number,
        }
    }
}
