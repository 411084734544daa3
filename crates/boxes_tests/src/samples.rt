// Valid boxes.

// R, G and B.
pub(crate) const RGB: &[u8] = b"\0\0\0\x12cmpd\0\0\0\x03\
    \0\x04\0\x05\0\x06";

// Monochrome, and a type of the user's own with its URI: the example of docs/FORMAT.md.
pub(crate) const HEAT: &[u8] = b"\0\0\0\x21cmpd\0\0\0\x02\
    \0\0\
    \x80\0urn:example:heat\0";

// The lowest and the highest type of the user's own, the first with an empty URI, between alpha and K.
pub(crate) const OWN: &[u8] = b"\0\0\0\x19cmpd\0\0\0\x04\
    \0\x07\
    \x80\0\0\
    \xff\xffa:b\0\
    \0\x10";

// Integers and floats, for `HEAT`: the example of docs/FORMAT.md.
pub(crate) const HEAT_STORED: &[u8] = b"\0\0\0\x36uncC\0\0\0\0\0\0\0\0\0\0\0\x02\
    \0\0\x0b\0\x02\
    \0\x01\x1f\x01\x04\
    \0\0\0\x80\
    \0\0\0\0\0\0\0\x40\0\0\0\0\0\0\0\x01\0\0\0\0";

// Hardly a field is 0, and many hold the most that they can.
pub(crate) const DENSE: &[u8] = b"\0\0\0\x3buncC\0\0\0\0\xa1\xb2\xc3\xd4\0\0\0\x03\
    \x01\x02\xff\0\0\
    \xff\xff\0\x01\xff\
    \0\0\x09\x02\x08\
    \x03\x05\x21\xa8\
    \x01\x02\x03\x04\x11\x12\x13\x14\x21\x22\x23\x24\xff\xff\xff\xff\x80\0\0\x01";

// The three boxes of version 1.
pub(crate) const RGB3: &[u8] = b"\0\0\0\x10uncC\x01\0\0\0rgb3";

pub(crate) const RGBA: &[u8] = b"\0\0\0\x10uncC\x01\0\0\0rgba";

pub(crate) const ABGR: &[u8] = b"\0\0\0\x10uncC\x01\0\0\0abgr";

// The list that `RGB3` stands for: the example of docs/FORMAT.md.
pub(crate) const RGB3_LISTED: &[u8] = b"\0\0\0\x3buncC\0\0\0\0rgb3\0\0\0\x03\
    \0\0\x07\0\0\
    \0\x01\x07\0\0\
    \0\x02\x07\0\0\
    \0\x01\0\0\
    \0\0\0\0\0\0\0\0\0\0\0\0\0\0\0\0\0\0\0\0";
