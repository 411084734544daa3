// The entries that share lines.
ghost use Rattle.std.specs.Prelude.{◌≡◌, ◌<◌, ◌≤◌, map, length, slice_index_or};
ghost use Rattle.choices.specs.declared.choice.Interleave.TheVariants.{Mixed};
ghost use Rattle.layout.specs.Parts.{view_of};
ghost use Rattle.placement.specs.Place.{no_strip, strip};
ghost use Rattle.plans.specs.Fit.{Fitting};
ghost use Rattle.plans.specs.Views.{alone as alone_in, together, tile_width, tile_height, strips_by, strip_at, plan_of};

use crate::frame::Frame;
use crate::line::Line;
use boxes::Interleave;
use plans::Entry;
use std::slice;

// Some entries: the line that they share, and how many such lines a tile has.
#[derive(Clone, Copy)]
pub(crate) struct Group<'a> {
    pub line: Line<'a>,
    pub rows: u64,
    ghost few: { rows ≤ 32768 },
}

// A group of a frame, by its number.
#[derive(Clone, Copy)]
pub(crate) struct GroupAt<'a> {
    pub frame: &'a Frame,
    pub number: usize,
    ghost inside: { number < length (strips_by frame.now.parts.interleave (view_of frame.now.parts)) },
}

impl Frame {
    ghost use Rattle.layout.specs.Groups.{Draws};

    pub(crate) fn group_count(&self) -> usize
        ensures { result ≡ length (strips_by self.now.parts.interleave (view_of self.now.parts)) }
    {
        match self.parts.interleave {
            Interleave::Component | Interleave::Row | Interleave::TileComponent => {
                self.listed().len()
            }
            Interleave::Pixel | Interleave::MultiY => 1,
            Interleave::Mixed => 2,
        }
    }

    // The group that has the entry at a position of the list.
    pub(crate) fn group_number(&self, position: usize) -> usize
        ensures { result ≡ strip_at self.now.parts.interleave position }
    {
        match self.parts.interleave {
            Interleave::Component | Interleave::Row | Interleave::TileComponent => position,
            Interleave::Pixel | Interleave::MultiY => 0,
            Interleave::Mixed => position.min(1),
        }
    }

    // A line of some entries, so many times over, and so many rows of it.
    fn group<'a>(&'a self, cycle: &'a [Entry], count: u64, rows: u64) -> Group<'a>
        requires fits { Fitting self.now.parts.packing cycle.now count }
        requires few { rows ≤ 32768 }
        ensures { Draws (view_of self.now.parts) result (together cycle.now count rows) }
    {
        let line = Line {
            packing: &self.parts.packing,
            cycle,
            count,
        };
        Group { line, rows }
    }

    // The lines of one entry.
    fn alone(&self, position: usize) -> Group
        requires { position < length (view_of self.now.parts).entries }
        ensures { Draws (view_of self.now.parts) result (slice_index_or (map (alone_in (view_of self.now.parts)) (view_of self.now.parts).entries) position no_strip) }
    {
        let entry = &self.listed()[position];
        self.group(
            slice::from_ref(entry),
            entry.columns / self.parts.tile_columns,
            entry.rows / self.parts.tile_rows,
        )
    }

    // In interleave 2: the lines of Y, then those of both chroma entries.
    fn mixed(&self, g: usize, width: u64, height: u64) -> Group
        requires three { length (view_of self.now.parts).entries ≡ 3 }
        requires tile { (width ≡ tile_width (view_of self.now.parts)) × (height ≡ tile_height (view_of self.now.parts)) }
        requires inside { g < 2 }
        ensures { Draws (view_of self.now.parts) result (slice_index_or (strips_by Mixed (view_of self.now.parts)) g no_strip) }
    {
        let sampling = self.parts.sampling;
        if g == 0 {
            self.group(&self.listed()[..1], width, height)
        } else {
            self.group(
                &self.listed()[1..],
                width / sampling.across(),
                height / sampling.down(),
            )
        }
    }
}

impl<'a> GroupAt<'a> {
    ghost use Rattle.layout.specs.Groups.{Draws};

    pub(crate) fn group(&self) -> Group<'a>
        ensures { Draws (view_of self.now.frame.now.parts) result (strip (plan_of (view_of self.now.frame.now.parts)) self.now.number) }
    {
        let frame = self.frame;
        let width = u64::from(frame.parts.width) / frame.parts.tile_columns;
        let height = u64::from(frame.parts.height) / frame.parts.tile_rows;
        match frame.parts.interleave {
            Interleave::Component | Interleave::Row | Interleave::TileComponent => {
                frame.alone(self.number)
            }
            Interleave::Pixel => frame.group(frame.listed(), width, height),
            Interleave::Mixed => frame.mixed(self.number, width, height),
            Interleave::MultiY => {
                let pairs = width / frame.parts.sampling.across();
                frame.group(frame.listed(), pairs, height)
            }
        }
    }
}
