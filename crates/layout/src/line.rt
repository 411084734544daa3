// A line: a cycle of entries, repeated, with what rounds it up.
ghost use Rattle.std.specs.Prelude.{◌≡◌, ◌+◌, ◌*◌, ◌^◌, ◌<◌, ◌≤◌, ◌≢◌, map, length, slice_index_or};
ghost use Rattle.plans.specs.Cells.{cell_of, packing_of};
ghost use Rattle.plans.specs.Fit.{Fitting};
ghost use Rattle.layout.specs.Once.{fitting_once};
ghost use Rattle.layout.specs.Seats.{Seated};
ghost use Rattle.layout.specs.Words.{word_in};
ghost use Rattle.placement.specs.Line.{repeated, run, run_bytes, line_word, line_bytes, up_to};
ghost use Rattle.placement.specs.Pack.{nowhere};

use crate::blocks::Blocked;
use crate::seat::Seat;
use crate::stream::Stream;
use crate::word::Word;
use plans::{Bytes, Entry, Packing};

#[derive(Clone, Copy)]
pub(crate) struct Line<'a> {
    pub packing: &'a Packing,
    pub cycle: &'a [Entry],
    // How often the line has the cycle.
    pub count: u64,
    ghost fits: { Fitting packing.now cycle.now count } by { fitting_once packing.now cycle.now count },
}

// `n` rounded up to a multiple of `m`, where `m` is not 0.
pub(crate) fn up_to(n: Bytes, m: Bytes) -> Bytes
    requires low { n.0 ≤ 2 ^ 60 }
    requires small { m.0 ≤ 2 ^ 21 }
    ensures is { result.0 ≡ up_to n.0 m.0 }
    ensures near { result.0 ≤ n.0 + m.0 }
{
    if m.0 == 0 {
        n
    } else {
        Bytes((n.0 + (m.0 - 1)) / m.0 * m.0)
    }
}

impl<'a> Line<'a> {
    fn stream(&self) -> Stream<'a>
        ensures little { result.little ≡ self.now.packing.now.little }
        ensures cycle { result.cycle.now ≡ self.now.cycle.now }
        ensures count { result.count ≡ self.now.count }
    {
        Stream {
            little: self.packing.little,
            cycle: self.cycle,
            count: self.count,
        }
    }

    fn blocked(&self) -> Blocked<'a>
        requires { self.now.packing.now.blocks.bytes.0 ≢ 0 }
        ensures block { result.block ≡ self.now.packing.now.blocks }
        ensures cycle { result.cycle.now ≡ self.now.cycle.now }
        ensures count { result.count ≡ self.now.count }
    {
        Blocked {
            block: self.packing.blocks,
            cycle: self.cycle,
            count: self.count,
        }
    }

    // The word at a seat of a run, which has no pixels.
    fn run_word(&self, seat: Seat) -> Word
        requires { Seated self.now.cycle.now self.now.count seat }
        ensures is { word_in result ≡ slice_index_or (run (packing_of self.now.packing.now) (repeated self.now.count (map cell_of self.now.cycle.now))) (seat.turn * length self.now.cycle.now + seat.slot) nowhere }
        ensures near { (result.first.0 ≤ 2 ^ 27) × (result.size.0 ≤ 9) }
    {
        if self.packing.blocks.bytes.0 == 0 {
            self.stream().word(seat)
        } else {
            self.blocked().word(seat)
        }
    }

    fn run_bytes(&self) -> Bytes
        ensures is { result.0 ≡ run_bytes (packing_of self.now.packing.now) (repeated self.now.count (map cell_of self.now.cycle.now)) }
        ensures near { result.0 ≤ 2 ^ 27 }
    {
        if self.packing.blocks.bytes.0 == 0 {
            self.stream().bytes()
        } else {
            self.blocked().bytes()
        }
    }

    // The word at a seat. With a pixel size each repetition is a run by itself, moved
    // to where its pixel begins.
    pub(crate) fn word(&self, seat: Seat) -> Word
        requires { Seated self.now.cycle.now self.now.count seat }
        ensures is { word_in result ≡ line_word (packing_of self.now.packing.now) (map cell_of self.now.cycle.now) self.now.count seat.turn seat.slot }
        ensures near { (result.first.0 ≤ 2 ^ 33) × (result.size.0 ≤ 9) }
    {
        if self.packing.pixel.0 == 0 {
            self.run_word(seat)
        } else {
            let pixel = Line {
                packing: self.packing,
                cycle: self.cycle,
                count: 1,
            };
            let first = Seat {
                turn: 0,
                slot: seat.slot,
            };
            pixel
                .run_word(first)
                .moved(Bytes(seat.turn * self.packing.pixel.0))
        }
    }

    pub(crate) fn bytes(&self) -> Bytes
        ensures is { result.0 ≡ line_bytes (packing_of self.now.packing.now) (map cell_of self.now.cycle.now) self.now.count }
        ensures near { result.0 ≤ 2 ^ 33 }
    {
        let bytes = if self.packing.pixel.0 == 0 {
            self.run_bytes()
        } else {
            Bytes(self.count * self.packing.pixel.0)
        };
        up_to(bytes, self.packing.row_align)
    }
}
