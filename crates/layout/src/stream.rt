// The values of a line without blocks. Each takes the bits that are next free, or has a word to itself that begins
// at the next whole byte.
ghost use Rattle.std.specs.Prelude.{◌≡◌, ◌+◌, ◌*◌, ◌/◌, ◌^◌, ◌<◌, ◌≤◌, map, length, slice_index_or};
ghost use Rattle.plans.specs.Cells.{cell_of};
ghost use Rattle.plans.specs.Fit.{Narrow, Streams};
ghost use Rattle.layout.specs.Once.{streams_once};
ghost use Rattle.layout.specs.Seats.{Seated};
ghost use Rattle.layout.specs.Words.{word_in};
ghost use Rattle.placement.specs.Line.{repeated};
ghost use Rattle.placement.specs.Pack.{packed, packed_word, packed_end, after, nowhere};

use crate::seat::Seat;
use crate::units::{bits_of, whole_bytes};
use crate::word::Word;
use plans::{Bits, Bytes, Entry};

// A cycle of entries, so many times over.
#[derive(Clone, Copy)]
pub(crate) struct Stream<'a> {
    pub little: bool,
    pub cycle: &'a [Entry],
    pub count: u64,
    ghost fits: { Streams cycle.now } by { streams_once cycle.now },
    ghost few: { count ≤ 32768 },
}

// The bytes that hold so many bits.
fn bytes_for(bits: Bits) -> Bytes
    requires { bits.0 < 2 ^ 60 }
    ensures { result.0 ≡ (bits.0 + 7) / 8 }
{
    whole_bytes(Bits(bits.0 + 7))
}

// The word of an entry where `free` is the next free bit.
fn word_after(little: bool, free: Bits, e: Entry) -> Word
    requires low { free.0 < 2 ^ 30 }
    requires narrow { Narrow e }
    ensures is { word_in result ≡ packed_word little free.0 (cell_of e) }
    ensures near { (result.first.0 ≤ free.0) × (result.size.0 ≤ 9) }
{
    if e.align == Bytes(0) {
        let first = whole_bytes(free);
        let stop = Bits(free.0 + e.depth.0);
        let end = bytes_for(stop);
        Word {
            first,
            size: Bytes(end.0 - first.0),
            little: false,
            low: Bits(bits_of(end).0 - stop.0),
            depth: e.depth,
        }
    } else {
        Word {
            first: bytes_for(free),
            size: e.align,
            little,
            low: Bits(0),
            depth: e.depth,
        }
    }
}

// The next free bit after the entry.
fn free_after(free: Bits, e: Entry) -> Bits
    requires low { free.0 < 2 ^ 30 }
    requires narrow { Narrow e }
    ensures next { result.0 ≡ after free.0 (cell_of e) }
    ensures near { result.0 ≤ free.0 + 71 }
{
    if e.align == Bytes(0) {
        Bits(free.0 + e.depth.0)
    } else {
        bits_of(Bytes(bytes_for(free).0 + e.align.0))
    }
}

// The next free bit after all of the entries.
fn free_after_all(free: Bits, entries: &[Entry]) -> Bits
    requires fits { Streams entries.now }
    requires low { free.0 < 2 ^ 29 }
    ensures is { result.0 ≡ packed_end free.0 (map cell_of entries.now) }
    ensures near { result.0 ≤ free.0 + 71 * length entries.now }
{
    let mut at = free;
    for entry in entries {
        at = free_after(at, *entry);
    }
    at
}

impl Stream<'_> {
    // The next free bit before the repetition `turn`. A run is not walked: each repetition but the first takes as many
    // bits as the second.
    fn start_of(&self, turn: u64) -> Bits
        requires { turn ≤ 32768 }
        ensures is { result.0 ≡ packed_end 0 (repeated turn (map cell_of self.now.cycle.now)) }
        ensures near { result.0 < 2 ^ 26 }
    {
        let first = free_after_all(Bits(0), self.cycle);
        let second = free_after_all(first, self.cycle);
        if turn == 0 {
            Bits(0)
        } else {
            Bits(first.0 + (turn - 1) * (second.0 - first.0))
        }
    }

    // The word at a seat.
    pub(crate) fn word(&self, seat: Seat) -> Word
        requires { Seated self.now.cycle.now self.now.count seat }
        ensures is { word_in result ≡ slice_index_or (packed self.now.little 0 (repeated self.now.count (map cell_of self.now.cycle.now))) (seat.turn * length self.now.cycle.now + seat.slot) nowhere }
        ensures near { (result.first.0 ≤ 2 ^ 27) × (result.size.0 ≤ 9) }
    {
        let free = free_after_all(self.start_of(seat.turn), &self.cycle[..seat.slot]);
        word_after(self.little, free, self.cycle[seat.slot])
    }

    pub(crate) fn bytes(&self) -> Bytes
        ensures is { result.0 ≡ (packed_end 0 (repeated self.now.count (map cell_of self.now.cycle.now)) + 7) / 8 }
        ensures near { result.0 ≤ 2 ^ 27 }
    {
        bytes_for(self.start_of(self.count))
    }
}
