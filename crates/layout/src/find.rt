// Which entry lists an index, and where it stands in a cycle.
ghost use Rattle.std.specs.Prelude.{◌≡◌, ◌<◌, map};
ghost use Rattle.placement.specs.Place.{times, nth};
ghost use Rattle.plans.specs.Cells.{slot_of};
ghost use Rattle.plans.specs.Entries.{position_with};

use plans::Entry;

// The position of the first entry that lists the index.
pub(crate) fn position(entries: &[Entry], index: u16) -> Option<usize>
    ensures { result ≡ position_with index entries.now }
{
    entries.iter().position(|entry| entry.index == index)
}

// How often the cycle has the index.
pub(crate) fn occurrences(cycle: &[Entry], index: u16) -> u64
    ensures { result ≡ times index (map slot_of cycle.now) }
{
    cycle.iter().filter(|entry| entry.index == index).count() as u64
}

// Where the cycle has the index for the k-th time, counted from 0.
pub(crate) fn occurrence(cycle: &[Entry], index: u16, k: u64) -> usize
    requires { k < times index (map slot_of cycle.now) }
    ensures { result ≡ nth index k (map slot_of cycle.now) }
{
    cycle
        .iter()
        .enumerate()
        .filter(|(_, entry)| entry.index == index)
        .nth(k as usize)
        .map_or(cycle.len(), |(slot, _)| slot)
}
