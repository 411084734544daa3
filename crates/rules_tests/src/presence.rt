// Rule 6: version 0 has a definition box, and version 1 has none.
use crate::answer::refusal_of_all;
use boxes::Boxes;
use fault::Reason::{self, Presence};
use rules::check;
use std::test::*;

const RGBA: &[u8] = b"\0\0\0\x14cmpd\0\0\0\x04\0\x04\0\x05\0\x06\0\x07";

// R alone, of eight bits.
const LISTED: &[u8] = b"\0\0\0\x31uncC\0\0\0\0\0\0\0\0\0\0\0\x01\
    \0\0\x07\0\0\
    \0\x01\0\0\
    \0\0\0\0\0\0\0\0\0\0\0\0\0\0\0\0\0\0\0\0";

const RGB3_BRIEF: &[u8] = b"\0\0\0\x10uncC\x01\0\0\0rgb3";

const RGBA_BRIEF: &[u8] = b"\0\0\0\x10uncC\x01\0\0\0rgba";

const ABGR_BRIEF: &[u8] = b"\0\0\0\x10uncC\x01\0\0\0abgr";

// The definition box, the configuration box, and the rule where it is broken.
struct Case(Option<&'static [u8]>, &'static [u8], Option<Reason>);

const CASES: [Case; 8] = [
    Case(Some(RGBA), LISTED, None),
    Case(None, LISTED, Some(Presence)),
    Case(None, RGB3_BRIEF, None),
    Case(None, RGBA_BRIEF, None),
    Case(None, ABGR_BRIEF, None),
    Case(Some(RGBA), RGB3_BRIEF, Some(Presence)),
    Case(Some(RGBA), RGBA_BRIEF, Some(Presence)),
    Case(Some(RGBA), ABGR_BRIEF, Some(Presence)),
];

#[test]
fn definition_goes_with_version(rt: HostRuntime) -> Result<(), Fail> {
    for (i, &Case(definition, configuration, broken)) in CASES.iter().enumerate() {
        let boxes = Boxes::read(definition, configuration)?;
        let expected = broken.map(refusal_of_all);
        assert_eq!(rt; check(&boxes, 1, 1).err(), expected, "case {i}");
    }
    Ok(())
}
