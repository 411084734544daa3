// The configuration box, read.
use crate::case::{Case, Edit, Whole};
use crate::draft::Draft;
use crate::kind::Kind;
use crate::samples::{ABGR, DENSE, HEAT_STORED, RGB3, RGB3_LISTED, RGBA};
use boxes::Format::{self, Complex, Float, Integer};
use boxes::{Configuration, Entry, Flags, Interleave, Sampling, Sizes};
use fault::Reason::{BoxType, Count, Extent, Reserved, Version};
use std::process::Abort;
use std::test::*;

const WHOLE: [Whole; 3] = [
    Whole {
        bytes: HEAT_STORED,
        fields: &[
            &[0, 4, 8, 9, 12, 16],
            &[20, 22, 23, 24],
            &[25, 27, 28, 29],
            &[30, 31, 32, 33],
            &[34, 38, 42, 46, 50],
        ],
    },
    Whole {
        bytes: DENSE,
        fields: &[
            &[0, 4, 8, 9, 12, 16],
            &[20, 22, 23, 24],
            &[25, 27, 28, 29],
            &[30, 32, 33, 34],
            &[35, 36, 37, 38],
            &[39, 43, 47, 51, 55],
        ],
    },
    Whole {
        bytes: RGBA,
        fields: &[&[0, 4, 8, 9, 12]],
    },
];

// `DENSE`, of version 0, with one thing wrong.
const WRONG: [Case; 43] = [
    // size
    Case(59, &[Edit(0, &[0, 0, 0, 58])], Extent, 0),
    Case(59, &[Edit(0, &[0, 0, 0, 60])], Extent, 0),
    Case(59, &[Edit(0, &[0, 0, 0, 0])], Extent, 0),
    Case(59, &[Edit(0, &[0, 0, 0, 1])], Extent, 0),
    Case(59, &[Edit(0, &[0, 0, 1, 59])], Extent, 0),
    Case(59, &[Edit(0, &[0, 1, 0, 59])], Extent, 0),
    Case(59, &[Edit(0, &[1, 0, 0, 59])], Extent, 0),
    // type word
    Case(59, &[Edit(4, b"UncC")], BoxType, 4),
    Case(59, &[Edit(4, b"uNcC")], BoxType, 4),
    Case(59, &[Edit(4, b"unCC")], BoxType, 4),
    Case(59, &[Edit(4, b"uncc")], BoxType, 4),
    Case(59, &[Edit(4, b"cmpd")], BoxType, 4),
    // version
    Case(59, &[Edit(8, &[2])], Version, 8),
    Case(59, &[Edit(8, &[255])], Version, 8),
    // box flags
    Case(59, &[Edit(9, &[1, 0, 0])], Version, 9),
    Case(59, &[Edit(9, &[0, 1, 0])], Version, 9),
    Case(59, &[Edit(9, &[0, 0, 1])], Version, 9),
    Case(59, &[Edit(9, &[0, 0, 128])], Version, 9),
    Case(59, &[Edit(9, &[255, 255, 255])], Version, 9),
    // count
    Case(59, &[Edit(16, &[0, 0, 0, 0])], Count, 16),
    Case(59, &[Edit(16, &[0, 0, 0, 17])], Count, 16),
    Case(59, &[Edit(16, &[0, 0, 1, 3])], Count, 16),
    Case(59, &[Edit(16, &[0, 1, 0, 3])], Count, 16),
    Case(59, &[Edit(16, &[1, 0, 0, 3])], Count, 16),
    Case(59, &[Edit(16, &[255, 255, 255, 255])], Count, 16),
    // a count that has the later fields begin elsewhere
    Case(59, &[Edit(16, &[0, 0, 0, 2])], Reserved, 33),
    Case(59, &[Edit(16, &[0, 0, 0, 2]), Edit(33, &[0])], Extent, 54),
    Case(59, &[Edit(16, &[0, 0, 0, 4])], Reserved, 38),
    Case(
        59,
        &[Edit(16, &[0, 0, 0, 4]), Edit(38, &[0]), Edit(43, &[0])],
        Extent,
        56,
    ),
    // format
    Case(59, &[Edit(23, &[3])], Reserved, 23),
    Case(59, &[Edit(28, &[3])], Reserved, 28),
    Case(59, &[Edit(33, &[3])], Reserved, 33),
    // sampling, interleave and flags
    Case(59, &[Edit(35, &[4])], Reserved, 35),
    Case(59, &[Edit(36, &[6])], Reserved, 36),
    Case(59, &[Edit(38, &[0x01])], Reserved, 38),
    Case(59, &[Edit(38, &[0x02])], Reserved, 38),
    Case(59, &[Edit(38, &[0x04])], Reserved, 38),
    // bytes left over
    Case(60, &[], Extent, 59),
    Case(61, &[], Extent, 59),
    Case(160, &[], Extent, 59),
    // a box of version 1, which ends elsewhere
    Case(59, &[Edit(8, &[1])], Reserved, 12),
    Case(59, &[Edit(8, &[1]), Edit(12, b"abgr")], Extent, 16),
    Case(17, &[Edit(8, &[1]), Edit(12, b"rgb3")], Extent, 16),
];

// `DENSE`, with two things wrong: the first field's is answered.
const WRONG_TWICE: [Case; 22] = [
    Case(59, &[Edit(0, &[9]), Edit(4, b"cmpd")], Extent, 0),
    Case(7, &[Edit(0, &[9])], Extent, 0),
    Case(59, &[Edit(4, b"cmpd"), Edit(8, &[2])], BoxType, 4),
    Case(8, &[Edit(4, b"cmpd")], BoxType, 4),
    Case(59, &[Edit(8, &[2, 1])], Version, 8),
    Case(9, &[Edit(8, &[2])], Version, 8),
    Case(11, &[Edit(8, &[2, 1])], Version, 8),
    Case(11, &[Edit(9, &[1])], Extent, 9),
    Case(12, &[Edit(9, &[1])], Version, 9),
    Case(15, &[Edit(9, &[0, 0, 1])], Version, 9),
    Case(59, &[Edit(9, &[1]), Edit(16, &[1])], Version, 9),
    Case(19, &[Edit(16, &[1])], Extent, 16),
    Case(20, &[Edit(16, &[1])], Count, 16),
    Case(59, &[Edit(16, &[1]), Edit(23, &[3])], Count, 16),
    Case(24, &[Edit(23, &[3])], Reserved, 23),
    Case(59, &[Edit(23, &[3]), Edit(28, &[3])], Reserved, 23),
    Case(59, &[Edit(33, &[3]), Edit(35, &[4])], Reserved, 33),
    Case(59, &[Edit(35, &[4, 6])], Reserved, 35),
    Case(36, &[Edit(35, &[4])], Reserved, 35),
    Case(59, &[Edit(36, &[6]), Edit(38, &[1])], Reserved, 36),
    Case(58, &[Edit(38, &[1])], Reserved, 38),
    Case(60, &[Edit(38, &[1])], Reserved, 38),
];

// `RGB3`, of version 1, with one or two things wrong.
const WRONG_BRIEF: [Case; 26] = [
    // size and type word
    Case(16, &[Edit(0, &[0, 0, 0, 15])], Extent, 0),
    Case(16, &[Edit(0, &[0, 0, 0, 17])], Extent, 0),
    Case(16, &[Edit(4, b"cmpd")], BoxType, 4),
    // version and box flags
    Case(16, &[Edit(8, &[2])], Version, 8),
    Case(16, &[Edit(9, &[1, 0, 0])], Version, 9),
    Case(16, &[Edit(9, &[0, 1, 0])], Version, 9),
    Case(16, &[Edit(9, &[0, 0, 1])], Version, 9),
    // other words
    Case(16, &[Edit(12, &[0, 0, 0, 0])], Reserved, 12),
    Case(16, &[Edit(12, b"Rgb3")], Reserved, 12),
    Case(16, &[Edit(12, b"rGb3")], Reserved, 12),
    Case(16, &[Edit(12, b"rgB3")], Reserved, 12),
    Case(16, &[Edit(12, b"rgb4")], Reserved, 12),
    Case(16, &[Edit(12, b"rgbA")], Reserved, 12),
    Case(16, &[Edit(12, b"abgR")], Reserved, 12),
    Case(16, &[Edit(12, b"bgr3")], Reserved, 12),
    Case(16, &[Edit(12, &[255, 255, 255, 255])], Reserved, 12),
    // bytes left over
    Case(17, &[], Extent, 16),
    Case(20, &[], Extent, 16),
    Case(59, &[], Extent, 16),
    // a box of version 0, which goes on
    Case(16, &[Edit(8, &[0])], Extent, 16),
    // two things
    Case(16, &[Edit(8, &[2]), Edit(12, b"bgr3")], Version, 8),
    Case(16, &[Edit(9, &[1]), Edit(12, b"bgr3")], Version, 9),
    Case(15, &[Edit(8, &[2])], Version, 8),
    Case(15, &[Edit(9, &[1])], Version, 9),
    Case(17, &[Edit(9, &[1])], Version, 9),
    Case(17, &[Edit(12, b"bgr3")], Reserved, 12),
];

// Bytes of `DENSE`, by their offsets, with the highest value that each may hold.
const BYTES: [(usize, u8); 18] = [
    // profile
    (12, 255),
    (15, 255),
    // index, depth minus one, format and align size
    (20, 255),
    (21, 255),
    (22, 255),
    (23, 2),
    (24, 255),
    // format of the next entries
    (28, 2),
    (33, 2),
    // sampling, interleave and block size
    (35, 3),
    (36, 5),
    (37, 255),
    // sizes
    (39, 255),
    (43, 255),
    (47, 255),
    (51, 255),
    (55, 255),
    (58, 255),
];

// The flags by the bits of their byte.
const FLAGS: [(u8, Flags); 8] = [
    (0x00, Flags::NONE),
    (
        0x80,
        Flags {
            components_little_endian: true,
            ..Flags::NONE
        },
    ),
    (
        0x40,
        Flags {
            pad_low: true,
            ..Flags::NONE
        },
    ),
    (
        0x20,
        Flags {
            block_little_endian: true,
            ..Flags::NONE
        },
    ),
    (
        0x10,
        Flags {
            block_reversed: true,
            ..Flags::NONE
        },
    ),
    (
        0x08,
        Flags {
            pad_unknown: true,
            ..Flags::NONE
        },
    ),
    (
        0xa8,
        Flags {
            components_little_endian: true,
            block_little_endian: true,
            pad_unknown: true,
            ..Flags::NONE
        },
    ),
    (
        0xf8,
        Flags {
            components_little_endian: true,
            pad_low: true,
            block_little_endian: true,
            block_reversed: true,
            pad_unknown: true,
        },
    ),
];

// The index, the depth, the format and the align size of an entry.
type Listed = (u16, u16, Format, u8);

// A list as it is to be read.
struct Known {
    bytes: &'static [u8],
    is_brief: bool,
    profile: u32,
    entries: &'static [Listed],
    sampling: Sampling,
    interleave: Interleave,
    block: u8,
    flags: Flags,
    sizes: Sizes,
}

const NO_SIZES: Sizes = Sizes {
    pixel_size: 0,
    row_align: 0,
    tile_align: 0,
    tile_columns_less_one: 0,
    tile_rows_less_one: 0,
};

const KNOWN: [Known; 6] = [
    Known {
        bytes: HEAT_STORED,
        is_brief: false,
        profile: 0,
        entries: &[(0, 12, Integer, 2), (1, 32, Float, 4)],
        sampling: Sampling::Full,
        interleave: Interleave::Component,
        block: 0,
        flags: Flags {
            components_little_endian: true,
            ..Flags::NONE
        },
        sizes: Sizes {
            pixel_size: 0,
            row_align: 64,
            tile_align: 0,
            tile_columns_less_one: 1,
            tile_rows_less_one: 0,
        },
    },
    Known {
        bytes: DENSE,
        is_brief: false,
        profile: 0xa1b2_c3d4,
        entries: &[
            (0x0102, 256, Integer, 0),
            (0xffff, 1, Float, 255),
            (0, 10, Complex, 8),
        ],
        sampling: Sampling::Yuv411,
        interleave: Interleave::MultiY,
        block: 0x21,
        flags: Flags {
            components_little_endian: true,
            block_little_endian: true,
            pad_unknown: true,
            ..Flags::NONE
        },
        sizes: Sizes {
            pixel_size: 0x0102_0304,
            row_align: 0x1112_1314,
            tile_align: 0x2122_2324,
            tile_columns_less_one: 0xffff_ffff,
            tile_rows_less_one: 0x8000_0001,
        },
    },
    Known {
        bytes: RGB3_LISTED,
        is_brief: false,
        profile: 0x7267_6233,
        entries: &[(0, 8, Integer, 0), (1, 8, Integer, 0), (2, 8, Integer, 0)],
        sampling: Sampling::Full,
        interleave: Interleave::Pixel,
        block: 0,
        flags: Flags::NONE,
        sizes: NO_SIZES,
    },
    Known {
        bytes: RGB3,
        is_brief: true,
        profile: 0x7267_6233,
        entries: &[(0, 8, Integer, 0), (1, 8, Integer, 0), (2, 8, Integer, 0)],
        sampling: Sampling::Full,
        interleave: Interleave::Pixel,
        block: 0,
        flags: Flags::NONE,
        sizes: NO_SIZES,
    },
    Known {
        bytes: RGBA,
        is_brief: true,
        profile: 0x7267_6261,
        entries: &[
            (0, 8, Integer, 0),
            (1, 8, Integer, 0),
            (2, 8, Integer, 0),
            (3, 8, Integer, 0),
        ],
        sampling: Sampling::Full,
        interleave: Interleave::Pixel,
        block: 0,
        flags: Flags::NONE,
        sizes: NO_SIZES,
    },
    Known {
        bytes: ABGR,
        is_brief: true,
        profile: 0x6162_6772,
        entries: &[
            (3, 8, Integer, 0),
            (2, 8, Integer, 0),
            (1, 8, Integer, 0),
            (0, 8, Integer, 0),
        ],
        sampling: Sampling::Full,
        interleave: Interleave::Pixel,
        block: 0,
        flags: Flags::NONE,
        sizes: NO_SIZES,
    },
];

fn listed(entry: &Entry) -> Listed {
    (entry.index, entry.depth(), entry.format, entry.align)
}

fn is_known(rt: &impl Abort, known: &Known) -> Result<(), Fail> {
    let configuration = Configuration::read(known.bytes)?;
    assert_eq!(rt; configuration.size(), known.bytes.len());
    assert_eq!(rt;
        matches!(&configuration, Configuration::Brief(_)),
        known.is_brief
    );
    let listing = configuration.listing();
    assert_eq!(rt; listing.profile, known.profile);
    assert_eq!(rt; listing.packing.sampling, known.sampling);
    assert_eq!(rt; listing.packing.interleave, known.interleave);
    assert_eq!(rt; listing.packing.block, known.block);
    assert_eq!(rt; listing.packing.flags, known.flags);
    assert_eq!(rt; listing.sizes, known.sizes);
    assert_eq!(rt; listing.entries().len(), known.entries.len());
    for (entry, expected) in listing.entries().iter().zip(known.entries) {
        assert_eq!(rt; listed(entry), *expected);
        assert_eq!(rt; entry.depth(), u16::from(entry.depth_less_one) + 1);
    }
    Ok(())
}

#[test]
fn cut_at_each_length(rt: HostRuntime) -> Result<(), Fail> {
    for whole in &WHOLE {
        Kind::Configuration.refuses_cuts(&rt, whole)?;
    }
    Ok(())
}

#[test]
fn wrong_fields(rt: HostRuntime) -> Result<(), Fail> {
    Kind::Configuration.refuses_all(&rt, DENSE, &WRONG)?;
    Kind::Configuration.refuses_all(&rt, DENSE, &WRONG_TWICE)?;
    Kind::Configuration.refuses_all(&rt, RGB3, &WRONG_BRIEF)?;
    Ok(())
}

#[test]
fn every_value_of_a_byte(rt: HostRuntime) -> Result<(), Fail> {
    for (at, last) in BYTES {
        let mut draft = Draft::of(rt.alloc(), DENSE)?;
        for byte in 0..=255u8 {
            draft.put(at, &[byte]);
            let tried = format_args!("{byte} at {at}");
            if byte > last {
                Kind::Configuration.refuses(&rt, draft.bytes(), Reserved, at as u64, &tried);
            } else {
                Kind::Configuration.accepts(&rt, draft.bytes(), &tried);
            }
        }
    }
    Ok(())
}

#[test]
fn every_flags_byte(rt: HostRuntime) -> Result<(), Fail> {
    let mut draft = Draft::of(rt.alloc(), DENSE)?;
    for byte in 0..=255u8 {
        draft.put(38, &[byte]);
        let tried = format_args!("flags {byte}");
        if byte % 8 == 0 {
            Kind::Configuration.accepts(&rt, draft.bytes(), &tried);
        } else {
            Kind::Configuration.refuses(&rt, draft.bytes(), Reserved, 38, &tried);
        }
    }
    Ok(())
}

#[test]
fn every_version_above_1(rt: HostRuntime) -> Result<(), Fail> {
    let mut listed = Draft::of(rt.alloc(), DENSE)?;
    let mut brief = Draft::of(rt.alloc(), RGB3)?;
    for version in 2..=255u8 {
        listed.put(8, &[version]);
        brief.put(8, &[version]);
        Kind::Configuration.refuses(&rt, listed.bytes(), Version, 8, &"listed");
        Kind::Configuration.refuses(&rt, brief.bytes(), Version, 8, &"brief");
    }
    Ok(())
}

const SAMPLINGS: [Sampling; 4] = [
    Sampling::Full,
    Sampling::Yuv422,
    Sampling::Yuv420,
    Sampling::Yuv411,
];

const INTERLEAVES: [Interleave; 6] = [
    Interleave::Component,
    Interleave::Pixel,
    Interleave::Mixed,
    Interleave::Row,
    Interleave::TileComponent,
    Interleave::MultiY,
];

#[test]
fn every_sampling_and_interleave(rt: HostRuntime) -> Result<(), Fail> {
    let mut draft = Draft::of(rt.alloc(), DENSE)?;
    for (across, sampling) in (0..4u8).zip(SAMPLINGS) {
        for (order, interleave) in (0..6u8).zip(INTERLEAVES) {
            draft.put(35, &[across, order]);
            let packing = Configuration::read(draft.bytes())?.listing().packing;
            assert_eq!(rt; packing.sampling, sampling);
            assert_eq!(rt; packing.interleave, interleave);
            assert_eq!(rt; packing.block, 0x21);
        }
    }
    Ok(())
}

#[test]
fn flags_one_by_one(rt: HostRuntime) -> Result<(), Fail> {
    for (byte, expected) in FLAGS {
        let mut draft = Draft::of(rt.alloc(), DENSE)?;
        draft.put(38, &[byte]);
        let listing = Configuration::read(draft.bytes())?.listing();
        assert_eq!(rt; listing.packing.flags, expected);
    }
    Ok(())
}

#[test]
fn lists(rt: HostRuntime) -> Result<(), Fail> {
    for known in &KNOWN {
        is_known(&rt, known)?;
    }
    Ok(())
}

// One to sixteen entries, each with an index of its own.
#[test]
fn every_count(rt: HostRuntime) -> Result<(), Fail> {
    let heap = rt.alloc();
    let mut draft = Draft::of(heap, b"\0\0\0\0uncC\0\0\0\0\0\0\0\0\0\0\0\0")?;
    for count in 1..=16u8 {
        draft.push(&[count, 0, 255, 2, 255])?;
        let mut whole = Draft::of(heap, draft.bytes())?;
        whole.put(19, &[count]);
        whole.push(&[0; 24])?;
        whole.seal();
        let listing = Configuration::read(whole.bytes())?.listing();
        assert_eq!(rt; listing.entries().len(), usize::from(count));
        let last = listing.entries().last().ok_or("no entry")?;
        assert_eq!(rt; listed(last), (256 * u16::from(count), 256, Complex, 255));
    }
    Ok(())
}
