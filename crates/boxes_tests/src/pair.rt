// Both boxes, read together.
use crate::samples::{ABGR, DENSE, HEAT, HEAT_STORED, OWN, RGB, RGB3, RGBA};
use boxes::Boxes;
use fault::{Fault, Layer, Reason};
use std::test::*;

// A byte is left over, which is the last thing that is looked at.
const LONG_DEFINITION: &[u8] = b"\0\0\0\x0fcmpd\0\0\0\x01\0\0\x09";

// The size is wrong, which is the first thing that is looked at.
const WRONG_SIZE: &[u8] = b"\0\0\0\x0funcC\x01\0\0\0rgb3";

// A pair that is refused.
struct Refused {
    definition: Option<&'static [u8]>,
    configuration: &'static [u8],
    refusal: Fault,
}

const REFUSED: [Refused; 6] = [
    Refused {
        definition: Some(LONG_DEFINITION),
        configuration: WRONG_SIZE,
        refusal: Fault {
            reason: Reason::Extent,
            layer: Layer::DefinitionBox,
            place: 14,
        },
    },
    Refused {
        definition: Some(LONG_DEFINITION),
        configuration: RGB3,
        refusal: Fault {
            reason: Reason::Extent,
            layer: Layer::DefinitionBox,
            place: 14,
        },
    },
    Refused {
        definition: Some(RGB),
        configuration: WRONG_SIZE,
        refusal: Fault {
            reason: Reason::Extent,
            layer: Layer::ConfigurationBox,
            place: 0,
        },
    },
    Refused {
        definition: None,
        configuration: WRONG_SIZE,
        refusal: Fault {
            reason: Reason::Extent,
            layer: Layer::ConfigurationBox,
            place: 0,
        },
    },
    // An empty definition box is not an absent one.
    Refused {
        definition: Some(&[]),
        configuration: RGB3,
        refusal: Fault {
            reason: Reason::Extent,
            layer: Layer::DefinitionBox,
            place: 0,
        },
    },
    // The boxes in each other's stead.
    Refused {
        definition: Some(RGB3),
        configuration: RGB,
        refusal: Fault {
            reason: Reason::BoxType,
            layer: Layer::DefinitionBox,
            place: 4,
        },
    },
];

// A pair, and the types of the components from index 0 on.
struct Typed {
    definition: Option<&'static [u8]>,
    configuration: &'static [u8],
    types: &'static [u16],
}

const TYPED: [Typed; 9] = [
    Typed {
        definition: Some(OWN),
        configuration: DENSE,
        types: &[7, 0x8000, 0xffff, 16],
    },
    Typed {
        definition: Some(HEAT),
        configuration: HEAT_STORED,
        types: &[0, 0x8000],
    },
    Typed {
        definition: None,
        configuration: DENSE,
        types: &[],
    },
    Typed {
        definition: None,
        configuration: RGB3,
        types: &[4, 5, 6],
    },
    Typed {
        definition: None,
        configuration: RGBA,
        types: &[4, 5, 6, 7],
    },
    Typed {
        definition: None,
        configuration: ABGR,
        types: &[4, 5, 6, 7],
    },
    // In version 1 the word defines the types, whatever the definition box says.
    Typed {
        definition: Some(OWN),
        configuration: RGB3,
        types: &[4, 5, 6],
    },
    Typed {
        definition: Some(HEAT),
        configuration: RGBA,
        types: &[4, 5, 6, 7],
    },
    Typed {
        definition: Some(OWN),
        configuration: ABGR,
        types: &[4, 5, 6, 7],
    },
];

#[test]
fn definition_is_answered_first(rt: HostRuntime) -> Result<(), Fail> {
    for pair in &REFUSED {
        let answer = Boxes::read(pair.definition, pair.configuration);
        assert_eq!(rt; answer.err(), Some(pair.refusal));
    }
    Ok(())
}

#[test]
fn component_types(rt: HostRuntime) -> Result<(), Fail> {
    for pair in &TYPED {
        let boxes = Boxes::read(pair.definition, pair.configuration)?;
        assert_eq!(rt; boxes.definition.is_some(), pair.definition.is_some());
        for index in 0..=u16::MAX {
            let expected = pair.types.get(usize::from(index)).copied();
            let answer = boxes.component_type(index).map(|t| u16::from(t));
            assert_eq!(rt; answer, expected, "index {index}");
        }
    }
    Ok(())
}
