// Boxes, written back.
use crate::draft::Draft;
use crate::samples::{ABGR, DENSE, HEAT, HEAT_STORED, OWN, RGB, RGB3, RGB3_LISTED, RGBA};
use boxes::{Boxes, Configuration, Definition};
use fault::{Fault, Layer, Reason};
use std::process::Abort;
use std::test::*;

// More than the longest box of these tests.
const ROOM: usize = 160;

// What every byte of a buffer holds before a box is written to it.
const OLD: u8 = 0xee;

const DEFINITIONS: [&[u8]; 3] = [RGB, HEAT, OWN];

const CONFIGURATIONS: [&[u8]; 6] = [HEAT_STORED, DENSE, RGB3_LISTED, RGB3, RGBA, ABGR];

// What was read as a pair, and the bytes that its definition box comes back as: none where it is absent.
struct Pair {
    definition: Option<&'static [u8]>,
    configuration: &'static [u8],
    back: &'static [u8],
}

const PAIRS: [Pair; 4] = [
    Pair {
        definition: Some(HEAT),
        configuration: HEAT_STORED,
        back: HEAT,
    },
    Pair {
        definition: Some(RGB),
        configuration: RGB3,
        back: RGB,
    },
    Pair {
        definition: None,
        configuration: HEAT_STORED,
        back: &[],
    },
    Pair {
        definition: None,
        configuration: RGB3,
        back: &[],
    },
];

// A box that was read.
trait Writable {
    const LAYER: Layer;

    fn write_to(&self, out: &mut [u8]) -> Result<usize, Fault>;
}

impl Writable for Definition<'_> {
    const LAYER: Layer = Layer::DefinitionBox;

    fn write_to(&self, out: &mut [u8]) -> Result<usize, Fault> {
        self.write(out)
    }
}

impl Writable for Configuration {
    const LAYER: Layer = Layer::ConfigurationBox;

    fn write_to(&self, out: &mut [u8]) -> Result<usize, Fault> {
        self.write(out)
    }
}

// The definition box of a pair.
impl Writable for Boxes<'_> {
    const LAYER: Layer = Layer::DefinitionBox;

    fn write_to(&self, out: &mut [u8]) -> Result<usize, Fault> {
        self.write_definition(out)
    }
}

// A buffer that begins with these bytes.
fn buffer(bytes: &[u8]) -> [u8; ROOM] {
    let mut out = [OLD; ROOM];
    for (old, new) in out.iter_mut().zip(bytes) {
        *old = *new;
    }
    out
}

// The first `len` bytes of a fresh buffer are offered, and the whole buffer is looked at after.
fn written<B: Writable>(of: &B, len: usize) -> (Result<usize, Fault>, [u8; ROOM]) {
    let mut out = buffer(&[]);
    let answer = of.write_to(&mut out[0..len.min(ROOM)]);
    (answer, out)
}

// Wherever the box has room it comes back, and nothing else changes.
fn comes_back<B: Writable>(rt: &impl Abort, of: &B, bytes: &[u8]) -> Result<(), Fail> {
    for len in bytes.len()..=ROOM {
        let (answer, out) = written(of, len);
        assert_eq!(rt; answer?, bytes.len());
        assert_eq!(rt; out, buffer(bytes), "room for {len}");
    }
    Ok(())
}

// Wherever it has none it is refused, and nothing changes.
fn wants_room<B: Writable>(rt: &impl Abort, of: &B, size: usize) -> Result<(), Fail> {
    let expected = B::LAYER.refuses(Reason::Room, 0);
    for len in 0..size {
        let (answer, out) = written(of, len);
        assert_eq!(rt; answer, Err(expected), "room for {len}");
        assert_eq!(rt; out, buffer(&[]), "room for {len}");
    }
    Ok(())
}

#[test]
fn definitions(rt: HostRuntime) -> Result<(), Fail> {
    for bytes in DEFINITIONS {
        let definition = Definition::read(bytes)?;
        comes_back(&rt, &definition, bytes)?;
        wants_room(&rt, &definition, bytes.len())?;
    }
    Ok(())
}

#[test]
fn configurations(rt: HostRuntime) -> Result<(), Fail> {
    for bytes in CONFIGURATIONS {
        let configuration = Configuration::read(bytes)?;
        comes_back(&rt, &configuration, bytes)?;
        wants_room(&rt, &configuration, bytes.len())?;
    }
    Ok(())
}

#[test]
fn pairs(rt: HostRuntime) -> Result<(), Fail> {
    for pair in &PAIRS {
        let boxes = Boxes::read(pair.definition, pair.configuration)?;
        comes_back(&rt, &boxes, pair.back)?;
        wants_room(&rt, &boxes, pair.back.len())?;
        comes_back(&rt, &boxes.configuration, pair.configuration)?;
    }
    Ok(())
}

// The longest lists: sixteen components, each with a URI, and sixteen entries.
#[test]
fn sixteen(rt: HostRuntime) -> Result<(), Fail> {
    let heap = rt.alloc();
    let mut definition = Draft::of(heap, b"\0\0\0\0cmpd\0\0\0\x10")?;
    let mut configuration = Draft::of(heap, b"\0\0\0\0uncC\0\0\0\0prof\0\0\0\x10")?;
    for i in 0..16u8 {
        definition.push(&[0x80 + i, 255 - i, 255 - i, 0])?;
        configuration.push(&[i, 255 - i, 16 * i, i % 3, i])?;
    }
    configuration.push(b"\x01\x02\x03\x50pixlrow-tilecolsrows")?;
    definition.seal();
    configuration.seal();
    comes_back(
        &rt,
        &Definition::read(definition.bytes())?,
        definition.bytes(),
    )?;
    comes_back(
        &rt,
        &Configuration::read(configuration.bytes())?,
        configuration.bytes(),
    )
}
