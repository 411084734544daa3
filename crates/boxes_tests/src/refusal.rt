// The numbers, the letters and the words by which a refusal is known.
use fault::{Fault, Layer, Reason};
use std::test::*;

const NUMBERS: [(Reason, u8); 20] = [
    (Reason::Extent, 1),
    (Reason::BoxType, 2),
    (Reason::Version, 3),
    (Reason::Count, 4),
    (Reason::Reserved, 5),
    (Reason::Presence, 6),
    (Reason::Dimensions, 7),
    (Reason::Index, 8),
    (Reason::Depth, 9),
    (Reason::Interleaving, 10),
    (Reason::Blocks, 11),
    (Reason::Alignment, 12),
    (Reason::Tiles, 13),
    (Reason::FrameSize, 14),
    (Reason::NoSuchPlace, 21),
    (Reason::Code, 22),
    (Reason::Kind, 23),
    (Reason::Bounds, 26),
    (Reason::Room, 27),
    (Reason::NotANumber, 28),
];

const LETTERS: [(Layer, char); 5] = [
    (Layer::DefinitionBox, 'd'),
    (Layer::ConfigurationBox, 'u'),
    (Layer::Configuration, 'c'),
    (Layer::Frame, 'f'),
    (Layer::Store, 's'),
];

#[test]
fn numbers_and_letters(rt: HostRuntime) {
    for (reason, number) in NUMBERS {
        assert_eq!(rt; u8::from(reason), number, "{reason}");
    }
    for (layer, letter) in LETTERS {
        assert_eq!(rt; char::from(layer), letter);
    }
}

#[test]
fn shown_as_text(rt: HostRuntime) -> Result<(), Fail> {
    let fault = Fault {
        reason: Reason::Count,
        layer: Layer::DefinitionBox,
        place: 8,
    };
    let text = format!(in rt.alloc(); "{fault}")?;
    assert_eq!(rt;
        text.as_str(),
        "refusal 4, layer d, place 8: a count of 0 or above 16"
    );
    Ok(())
}
