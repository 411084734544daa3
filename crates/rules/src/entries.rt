// The rules on single entries: indexes, and depths with formats, types and aligns.
ghost use Rattle.std.specs.Prelude.{◌≡◌, ◌+◌, ◌<◌, ◌≤◌, [], List, Bool};
ghost use Rattle.configuration.specs.declared.entry.Entry.{Entry};
ghost use Rattle.fault.specs.declared.reason.Reason.TheVariants.{Index, Depth};
ghost use Rattle.rules.specs.Entries.{lists, indexed, depth_fits, align_fits, deep};
ghost use Rattle.rules.specs.Rules.{each_keeps};
ghost use Rattle.rules.specs.Typing.{types, entries, packing};

use crate::refused::refused_at;
use crate::typed::Typed;
use boxes::{ComponentType, Entry, Format, Interleave};
use fault::{Fault, Reason};

fn depth_fits(format: Format, depth: u16) -> bool
    ensures { result ≡ depth_fits format depth }
{
    match format {
        Format::Integer => 1 <= depth && depth <= 64,
        Format::Float => depth == 16 || depth == 32 || depth == 64,
        Format::Complex => depth == 32 || depth == 64,
    }
}

fn align_fits(align: u8, depth: u16) -> bool
    ensures { result ≡ align_fits align depth }
{
    align == 0 || (align <= 8 && depth < 8 * u16::from(align))
}

// The first entry that does not keep the rule is to blame. The rule may look at those listed earlier.
fn each_keeps<K: Fn(&[Entry], &Entry) -> bool>(
    entries: &[Entry],
    reason: Reason,
    keeps: K,
) -> Result<(), Fault>
    requires { K.IsAlwaysCallable keeps }
    ensures { (rule : List Entry → Entry → Bool)
        → ((earlier : _) (entry : _) (kept : Bool) → K.post keeps earlier entry kept → kept ≡ rule earlier.now entry.now)
        → result ≡ each_keeps rule reason [] entries.now }
{
    for (i, entry) in entries.iter().enumerate() {
        if !keeps(&entries[..i], entry) {
            return Err(refused_at(reason, i));
        }
    }
    Ok(())
}

// Whether one of the entries lists the index.
fn is_listed(entries: &[Entry], index: u16) -> bool
    ensures { result ≡ lists index entries.now }
{
    entries.iter().any(|e| e.index == index)
}

impl Typed<'_> {
    // Only interleave 5 lists an index again, and only that of Y.
    fn is_indexed(&self, earlier: &[Entry], entry: &Entry) -> bool
        ensures { result ≡ indexed (types self.now) (packing self.now).interleave earlier.now entry.now }
    {
        let defined = self.boxes.component_type(entry.index).is_some();
        let again = is_listed(earlier, entry.index);
        let many = self.listing.packing.interleave == Interleave::MultiY;
        defined && (!again || (many && self.is_of(ComponentType::Y, entry)))
    }

    pub(crate) fn indexes(&self) -> Result<(), Fault>
        ensures { result ≡ each_keeps (indexed (types self.now) (packing self.now).interleave) Index [] (entries self.now) }
    {
        each_keeps(
            self.entries(),
            Reason::Index,
            |earlier, entry| self.is_indexed(earlier, entry),
        )
    }

    fn is_deep(&self, entry: &Entry) -> bool
        ensures { result ≡ deep (types self.now) [] entry.now }
    {
        let depth = entry.depth();
        depth_fits(entry.format, depth)
            && (!self.is_of(ComponentType::Palette, entry) || entry.format == Format::Integer)
            && align_fits(entry.align, depth)
    }

    pub(crate) fn depths(&self) -> Result<(), Fault>
        ensures { result ≡ each_keeps (deep (types self.now)) Depth [] (entries self.now) }
    {
        each_keeps(
            self.entries(),
            Reason::Depth,
            |_, entry| self.is_deep(entry),
        )
    }
}
