// Which interleaves go with a sampling, and what they list.
ghost use Rattle.std.specs.Prelude.{◌≡◌, not};
ghost use Rattle.std.specs.List.{list_all};
ghost use Rattle.choices.specs.ComponentTypes.{type_number};
ghost use Rattle.rules.specs.Entries.{is_of};
ghost use Rattle.rules.specs.Interleaving.{goes_with, same_of, one_index_of, yuv, is_yuv, alike, list_fits, is_interleaved};
ghost use Rattle.rules.specs.Typing.{types, entries, packing};

use crate::typed::Typed;
use boxes::{ComponentType, Entry, Interleave, Sampling};

fn goes_with(sampling: Sampling, interleave: Interleave) -> bool
    ensures { result ≡ goes_with sampling interleave }
{
    matches!(
        (sampling, interleave),
        (_, Interleave::Component | Interleave::TileComponent)
            | (Sampling::Full, Interleave::Pixel | Interleave::Row)
            | (Sampling::Yuv422, Interleave::Mixed | Interleave::MultiY)
            | (Sampling::Yuv420, Interleave::Mixed)
            | (Sampling::Yuv411, Interleave::MultiY)
    )
}

// Whether the two are stored alike, where they list one index.
fn is_alike(a: &Entry, b: &Entry) -> bool
    ensures { result ≡ alike a.now b.now }
{
    a.index != b.index || a == b
}

fn all_like(a: &Entry, entries: &[Entry]) -> bool
    ensures { result ≡ list_all (alike a.now) entries.now }
{
    entries.iter().all(|b| is_alike(a, b))
}

fn all_alike(entries: &[Entry]) -> bool
    ensures { result ≡ list_all (λ a. list_all (alike a) entries.now) entries.now }
{
    entries.iter().all(|a| all_like(a, entries))
}

impl Typed<'_> {
    fn is_same(&self, wanted: ComponentType, a: &Entry, b: &Entry) -> bool
        ensures { result ≡ same_of (types self.now) (type_number wanted) a.now b.now }
    {
        !(self.is_of(wanted, a) && self.is_of(wanted, b)) || a.index == b.index
    }

    // Whether no entry is of this type.
    fn lists_none(&self, wanted: ComponentType) -> bool
        ensures { result ≡ list_all (λ e. not (is_of (types self.now) (type_number wanted) e)) (entries self.now) }
    {
        self.entries().iter().all(|e| !self.is_of(wanted, e))
    }

    fn lists_same_as(&self, wanted: ComponentType, a: &Entry) -> bool
        ensures { result ≡ list_all (same_of (types self.now) (type_number wanted) a.now) (entries self.now) }
    {
        self.entries().iter().all(|b| self.is_same(wanted, a, b))
    }

    // Whether all entries of this type list one index.
    fn lists_same(&self, wanted: ComponentType) -> bool
        ensures { result ≡ list_all (λ a. list_all (same_of (types self.now) (type_number wanted) a) (entries self.now)) (entries self.now) }
    {
        self.entries().iter().all(|a| self.lists_same_as(wanted, a))
    }

    fn one_index_of(&self, wanted: ComponentType) -> bool
        ensures { result ≡ one_index_of (types self.now) (type_number wanted) (entries self.now) }
    {
        !self.lists_none(wanted) && self.lists_same(wanted)
    }

    // One listed index each of Y, U and V.
    fn has_yuv(&self) -> bool
        ensures { result ≡ yuv (types self.now) (entries self.now) }
    {
        self.one_index_of(ComponentType::Y)
            && self.one_index_of(ComponentType::U)
            && self.one_index_of(ComponentType::V)
    }

    fn is_yuv(&self, entry: &Entry) -> bool
        ensures { result ≡ is_yuv (types self.now) entry.now }
    {
        self.is_of(ComponentType::Y, entry)
            || self.is_of(ComponentType::U, entry)
            || self.is_of(ComponentType::V, entry)
    }

    fn lists_yuv(&self) -> bool
        ensures { result ≡ list_all (is_yuv (types self.now)) (entries self.now) }
    {
        self.entries().iter().all(|e| self.is_yuv(e))
    }

    fn list_fits(&self) -> bool
        ensures { result ≡ list_fits (types self.now) (packing self.now).sampling (packing self.now).interleave (entries self.now) }
    {
        let entries = self.entries();
        match self.listing.packing.interleave {
            Interleave::Mixed => {
                entries.len() == 3 && self.lists_yuv() && self.is_of(ComponentType::Y, &entries[0])
            }
            Interleave::MultiY => {
                let luma = self.listing.packing.sampling.across();
                entries.len() as u64 == 2 + luma && self.lists_yuv() && all_alike(entries)
            }
            _ => true,
        }
    }

    pub(crate) fn interleaves(&self) -> bool
        ensures { result ≡ is_interleaved (types self.now) (packing self.now).sampling (packing self.now).interleave (entries self.now) }
    {
        let sampling = self.listing.packing.sampling;
        goes_with(sampling, self.listing.packing.interleave)
            && (sampling == Sampling::Full || (self.has_yuv() && self.list_fits()))
    }
}
