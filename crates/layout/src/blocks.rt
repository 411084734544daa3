// The values of a line in blocks. A block takes values as long as they fit; then the next one is opened.
ghost use Rattle.std.specs.Prelude.{◌≡◌, ◌+◌, ◌*◌, ◌^◌, ◌<◌, ◌≤◌, [], ◌∷◌, map, length, drop, slice_index_or};
ghost use Rattle.plans.specs.Cells.{cell_of, blocks_of};
ghost use Rattle.plans.specs.Fit.{InBlocks};
ghost use Rattle.layout.specs.Once.{in_blocks_once};
ghost use Rattle.layout.specs.Seats.{Seated};
ghost use Rattle.layout.specs.Words.{word_in};
ghost use Rattle.placement.specs.Line.{repeated};
ghost use Rattle.placement.specs.Pack.{blocked, blocks_end, block_word, nowhere, total};

use crate::seat::Seat;
use crate::units::bits_of;
use crate::word::Word;
use plans::{Bits, Blocks, Bytes, Entry};

// A cycle of entries, so many times over.
#[derive(Clone, Copy)]
pub(crate) struct Blocked<'a> {
    // What a block is.
    pub block: Blocks,
    pub cycle: &'a [Entry],
    pub count: u64,
    ghost fits: { InBlocks block cycle.now } by { in_blocks_once block cycle.now },
    ghost few: { count ≤ 32768 },
}

// The open block of a walk along a line, and the bits that it has, which are those of at most 8 bytes.
#[derive(Clone, Copy)]
pub(crate) struct State {
    pub block: u64,
    pub bits: Bits,
    ghost few: { bits.0 ≤ 64 },
}

// The word of `depth` bits behind `before` others, in a block that has `filled` bits in the end.
fn block_word(b: Blocks, block: u64, before: Bits, filled: Bits, depth: Bits) -> Word
    requires inside { before.0 + depth.0 ≤ filled.0 }
    requires room { filled.0 ≤ 8 * b.bytes.0 }
    requires small { b.bytes.0 ≤ 8 }
    requires low { block ≤ 2 ^ 20 }
    ensures is { word_in result ≡ block_word (blocks_of b) block before.0 filled.0 depth.0 }
    ensures near { (result.first.0 ≤ 8 * block) × (result.size.0 ≤ 9) }
{
    let base = if b.pad_low {
        bits_of(b.bytes).0 - filled.0
    } else {
        0
    };
    let above = if b.reversed {
        before.0
    } else {
        filled.0 - (before.0 + depth.0)
    };
    Word {
        first: Bytes(block * b.bytes.0),
        size: b.bytes,
        little: b.little,
        low: Bits(base + above),
        depth,
    }
}

impl Blocked<'_> {
    ghost use Rattle.layout.specs.Walk.{Opened, Walked, origin};

    // The block that takes `depth` bits more, and its bits before them.
    fn open_for(&self, s: State, depth: Bits) -> State
        requires within { depth.0 ≤ 8 * self.now.block.bytes.0 }
        requires low { s.block ≤ 2 ^ 20 }
        ensures is { Opened self.now.block s depth.0 result }
        ensures fits { result.bits.0 + depth.0 ≤ 8 * self.now.block.bytes.0 }
        ensures near { result.block ≤ s.block + 1 }
    {
        if s.bits.0 + depth.0 <= bits_of(self.block.bytes).0 {
            s
        } else {
            State {
                block: s.block + 1,
                bits: Bits(0),
            }
        }
    }

    // The bits in the end of a block that has `start` bits before the value `from` of the line. The line is not a list:
    // its value i is the entry i of the cycle, which comes round.
    fn filled_from(&self, start: Bits, from: u64) -> Bits
        requires some { 0 < length self.now.cycle.now }
        requires room { start.0 ≤ 8 * self.now.block.bytes.0 }
        requires inside { from ≤ self.now.count * length self.now.cycle.now }
        ensures is { result.0 ≡ total (blocks_of self.now.block) start.0 (drop from (repeated self.now.count (map cell_of self.now.cycle.now))) }
    {
        let each = self.cycle.len() as u64;
        let mut filled = start;
        for i in from..self.count * each {
            let depth = self.cycle[(i % each) as usize].depth;
            if filled.0 + depth.0 > bits_of(self.block.bytes).0 {
                return filled;
            }
            filled = Bits(filled.0 + depth.0);
        }
        filled
    }

    // The state behind one entry.
    fn past(&self, s: State, entry: Entry) -> State
        requires within { entry.depth.0 ≤ 8 * self.now.block.bytes.0 }
        requires low { s.block ≤ 2 ^ 20 }
        ensures is { Walked self.now.block s (cell_of entry ∷ []) result }
        ensures near { result.block ≤ s.block + 1 }
    {
        let open = self.open_for(s, entry.depth);
        State {
            block: open.block,
            bits: Bits(open.bits.0 + entry.depth.0),
        }
    }

    // The state behind some entries.
    fn through(&self, s: State, entries: &[Entry]) -> State
        requires fits { InBlocks self.now.block entries.now }
        requires low { s.block + length entries.now ≤ 2 ^ 20 }
        ensures is { Walked self.now.block s (map cell_of entries.now) result }
        ensures near { result.block ≤ s.block + length entries.now }
    {
        let mut t = s;
        for entry in entries {
            t = self.past(t, *entry);
        }
        t
    }

    // The state behind `n` repetitions of the cycle.
    fn rounds(&self, s: State, n: u64) -> State
        requires { s.block + n * length self.now.cycle.now ≤ 2 ^ 20 }
        ensures is { Walked self.now.block s (repeated n (map cell_of self.now.cycle.now)) result }
        ensures near { result.block ≤ s.block + n * length self.now.cycle.now }
    {
        let mut t = s;
        for _turn in 0..n {
            t = self.through(t, self.cycle);
        }
        t
    }

    // The state behind `turn` repetitions of the cycle. A repetition goes on from no more than the bits of the open
    // block, of which there are at most 65 numbers: they come round again, and the repetitions between are left out.
    fn turn_at(&self, turn: u64) -> State
        requires { turn ≤ 32768 }
        ensures is { Walked self.now.block origin (repeated turn (map cell_of self.now.cycle.now)) result }
        ensures low { result.block ≤ 2 ^ 19 }
    {
        let lead = turn.min(64);
        let none = State {
            block: 0,
            bits: Bits(0),
        };
        let first = self.rounds(none, lead);
        let left = turn - lead;
        let mut s = first;
        for before in 0..left {
            s = self.rounds(s, 1);
            if s.bits == first.bits {
                let n = before + 1;
                let skipped = left / n * (s.block - first.block);
                let on = State {
                    block: first.block + skipped,
                    bits: first.bits,
                };
                return self.rounds(on, left % n);
            }
        }
        s
    }

    // The word at a seat.
    pub(crate) fn word(&self, seat: Seat) -> Word
        requires { Seated self.now.cycle.now self.now.count seat }
        ensures is { word_in result ≡ slice_index_or (blocked (blocks_of self.now.block) 0 0 (repeated self.now.count (map cell_of self.now.cycle.now))) (seat.turn * length self.now.cycle.now + seat.slot) nowhere }
        ensures near { (result.first.0 ≤ 2 ^ 23) × (result.size.0 ≤ 9) }
    {
        let depth = self.cycle[seat.slot].depth;
        let s = self.through(self.turn_at(seat.turn), &self.cycle[..seat.slot]);
        let open = self.open_for(s, depth);
        let behind = seat.turn * self.cycle.len() as u64 + seat.slot as u64 + 1;
        let filled = self.filled_from(Bits(open.bits.0 + depth.0), behind);
        block_word(self.block, open.block, open.bits, filled, depth)
    }

    fn block_count(&self) -> u64
        ensures is { result ≡ blocks_end (blocks_of self.now.block) 0 0 (repeated self.now.count (map cell_of self.now.cycle.now)) }
        ensures near { result ≤ 2 ^ 20 }
    {
        let s = self.turn_at(self.count);
        if s.bits == Bits(0) {
            s.block
        } else {
            s.block + 1
        }
    }

    pub(crate) fn bytes(&self) -> Bytes
        ensures is { result.0 ≡ blocks_end (blocks_of self.now.block) 0 0 (repeated self.now.count (map cell_of self.now.cycle.now)) * self.now.block.bytes.0 }
        ensures near { result.0 ≤ 2 ^ 23 }
    {
        Bytes(self.block_count() * self.block.bytes.0)
    }
}
