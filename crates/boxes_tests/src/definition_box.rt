// The definition box, read.
use crate::case::{Case, Edit, Whole};
use crate::draft::Draft;
use crate::kind::Kind;
use crate::samples::{HEAT, OWN, RGB};
use boxes::{Component, Definition};
use fault::Reason::{BoxType, Count, Extent, Reserved};
use std::process::Abort;
use std::test::*;

const WHOLE: [Whole; 3] = [
    Whole {
        bytes: RGB,
        fields: &[&[0, 4, 8], &[12], &[14], &[16]],
    },
    Whole {
        bytes: HEAT,
        fields: &[&[0, 4, 8], &[12], &[14, 16]],
    },
    Whole {
        bytes: OWN,
        fields: &[&[0, 4, 8], &[12], &[14, 16], &[17, 19], &[23]],
    },
];

// `OWN`, with one thing wrong.
const WRONG: [Case; 37] = [
    // size
    Case(25, &[Edit(0, &[0, 0, 0, 24])], Extent, 0),
    Case(25, &[Edit(0, &[0, 0, 0, 26])], Extent, 0),
    Case(25, &[Edit(0, &[0, 0, 0, 0])], Extent, 0),
    Case(25, &[Edit(0, &[0, 0, 0, 1])], Extent, 0),
    Case(25, &[Edit(0, &[0, 0, 1, 25])], Extent, 0),
    Case(25, &[Edit(0, &[0, 1, 0, 25])], Extent, 0),
    Case(25, &[Edit(0, &[1, 0, 0, 25])], Extent, 0),
    // type word
    Case(25, &[Edit(4, b"Cmpd")], BoxType, 4),
    Case(25, &[Edit(4, b"cnpd")], BoxType, 4),
    Case(25, &[Edit(4, b"cmqd")], BoxType, 4),
    Case(25, &[Edit(4, b"cmpe")], BoxType, 4),
    Case(25, &[Edit(4, b"uncC")], BoxType, 4),
    // count
    Case(25, &[Edit(8, &[0, 0, 0, 0])], Count, 8),
    Case(25, &[Edit(8, &[0, 0, 0, 17])], Count, 8),
    Case(25, &[Edit(8, &[0, 0, 1, 4])], Count, 8),
    Case(25, &[Edit(8, &[0, 1, 0, 4])], Count, 8),
    Case(25, &[Edit(8, &[1, 0, 0, 4])], Count, 8),
    Case(25, &[Edit(8, &[255, 255, 255, 255])], Count, 8),
    // fewer or more components than the count says
    Case(25, &[Edit(8, &[0, 0, 0, 1])], Extent, 14),
    Case(25, &[Edit(8, &[0, 0, 0, 2])], Extent, 17),
    Case(25, &[Edit(8, &[0, 0, 0, 3])], Extent, 23),
    Case(25, &[Edit(8, &[0, 0, 0, 5])], Extent, 25),
    Case(25, &[Edit(8, &[0, 0, 0, 16])], Extent, 25),
    // reserved types
    Case(25, &[Edit(12, &[0, 17])], Reserved, 12),
    Case(25, &[Edit(12, &[0x7f, 0xff])], Reserved, 12),
    Case(25, &[Edit(14, &[0, 17])], Reserved, 14),
    Case(25, &[Edit(17, &[0x7f, 0xff])], Reserved, 17),
    Case(25, &[Edit(23, &[1, 0])], Reserved, 23),
    // a type that now has a URI, which ends within the next type
    Case(25, &[Edit(12, &[0x80, 7])], Reserved, 16),
    // URIs that go on over the next fields, or never end
    Case(25, &[Edit(16, &[1])], Extent, 25),
    Case(25, &[Edit(22, &[1])], Extent, 24),
    Case(25, &[Edit(22, &[1, 1])], Extent, 19),
    Case(25, &[Edit(16, &[1]), Edit(22, &[1, 1])], Extent, 16),
    Case(25, &[Edit(23, &[0x80, 0])], Extent, 25),
    // bytes left over
    Case(26, &[], Extent, 25),
    Case(27, &[], Extent, 25),
    Case(160, &[], Extent, 25),
];

// `OWN`, with two things wrong: the first field's is answered.
const WRONG_TWICE: [Case; 11] = [
    Case(25, &[Edit(0, &[9]), Edit(4, b"uncC")], Extent, 0),
    Case(7, &[Edit(0, &[9])], Extent, 0),
    Case(25, &[Edit(4, b"uncC"), Edit(8, &[9])], BoxType, 4),
    Case(9, &[Edit(4, b"uncC")], BoxType, 4),
    Case(11, &[Edit(8, &[9])], Extent, 8),
    Case(12, &[Edit(8, &[9])], Count, 8),
    Case(25, &[Edit(8, &[9]), Edit(12, &[9])], Count, 8),
    Case(25, &[Edit(12, &[9]), Edit(14, &[9])], Reserved, 12),
    Case(25, &[Edit(12, &[9]), Edit(22, &[1, 1])], Reserved, 12),
    Case(22, &[Edit(17, &[9])], Reserved, 17),
    Case(26, &[Edit(23, &[9])], Reserved, 23),
];

// A component as it is to be read.
struct Known {
    number: u16,
    // The place and the text.
    uri: Option<(u64, &'static [u8])>,
}

const HEAT_KNOWN: [Known; 2] = [
    Known {
        number: 0,
        uri: None,
    },
    Known {
        number: 0x8000,
        uri: Some((16, b"urn:example:heat")),
    },
];

const OWN_KNOWN: [Known; 4] = [
    Known {
        number: 7,
        uri: None,
    },
    Known {
        number: 0x8000,
        uri: Some((16, b"")),
    },
    Known {
        number: 0xffff,
        uri: Some((19, b"a:b")),
    },
    Known {
        number: 16,
        uri: None,
    },
];

// Where a component says that its URI lies.
fn span(component: &Component) -> Option<(u64, u64)> {
    component
        .uri
        .map(|uri| (u64::from(uri.at), u64::from(uri.len)))
}

fn all_known(rt: &impl Abort, bytes: &[u8], known: &[Known]) -> Result<(), Fail> {
    let definition = Definition::read(bytes)?;
    let components = definition.components();
    assert_eq!(rt; components.len(), known.len());
    assert_eq!(rt; definition.size(), bytes.len());
    for (i, (component, known)) in components.iter().zip(known).enumerate() {
        assert_eq!(rt; component.number, known.number, "component {i}");
        let uri = definition.uri(i).map(|uri| (uri.place, uri.text));
        assert_eq!(rt; uri, known.uri, "component {i}");
        let spanned = known.uri.map(|(place, text)| (place, text.len() as u64));
        assert_eq!(rt; span(component), spanned, "component {i}");
    }
    for past in [known.len(), 16, usize::MAX] {
        assert!(rt; definition.uri(past).is_none(), "component {past}");
    }
    Ok(())
}

#[test]
fn cut_at_each_length(rt: HostRuntime) -> Result<(), Fail> {
    for whole in &WHOLE {
        Kind::Definition.refuses_cuts(&rt, whole)?;
    }
    Ok(())
}

#[test]
fn wrong_fields(rt: HostRuntime) -> Result<(), Fail> {
    for cases in [WRONG.as_slice(), WRONG_TWICE.as_slice()] {
        Kind::Definition.refuses_all(&rt, OWN, cases)?;
    }
    Ok(())
}

#[test]
fn every_reserved_type(rt: HostRuntime) -> Result<(), Fail> {
    let mut draft = Draft::of(rt.alloc(), RGB)?;
    for number in 17..0x8000u16 {
        draft.put(14, &number.to_be_bytes());
        let tried = format_args!("type {number}");
        Kind::Definition.refuses(&rt, draft.bytes(), Reserved, 14, &tried);
    }
    Ok(())
}

#[test]
fn components_and_uris(rt: HostRuntime) -> Result<(), Fail> {
    all_known(&rt, HEAT, &HEAT_KNOWN)?;
    all_known(&rt, OWN, &OWN_KNOWN)
}

// One to sixteen components, so that each type from 1 to 16 is read too.
#[test]
fn every_count(rt: HostRuntime) -> Result<(), Fail> {
    let mut draft = Draft::of(rt.alloc(), b"\0\0\0\0cmpd\0\0\0\0")?;
    for count in 1..=16u8 {
        draft.push(&[0, count])?;
        draft.put(11, &[count]);
        draft.seal();
        let definition = Definition::read(draft.bytes())?;
        let components = definition.components();
        assert_eq!(rt; components.len(), usize::from(count));
        let last = components.last().ok_or("no component")?;
        assert_eq!(rt; last.number, u16::from(count));
    }
    Ok(())
}

// Sixteen components, each with a URI.
#[test]
fn every_component_with_uri(rt: HostRuntime) -> Result<(), Fail> {
    let mut draft = Draft::of(rt.alloc(), b"\0\0\0\0cmpd\0\0\0\x10")?;
    for i in 0..16u8 {
        draft.push(&[0x80 | i, 255 - i, 255 - i, 0])?;
    }
    draft.seal();
    let definition = Definition::read(draft.bytes())?;
    assert_eq!(rt; definition.components().len(), 16);
    for (i, component) in (0..16u8).zip(definition.components()) {
        assert_eq!(rt; component.number, u16::from_be_bytes([0x80 | i, 255 - i]));
        let uri = definition.uri(usize::from(i)).ok_or("no URI")?;
        assert_eq!(rt; uri.place, 14 + 4 * u64::from(i));
        assert_eq!(rt; uri.text, [255 - i].as_slice());
    }
    Ok(())
}
