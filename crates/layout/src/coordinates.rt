// A place by its line: which tile, group and line hold it, and in the line which repetition and slot of the cycle.
ghost use Rattle.std.specs.Prelude.{◌≡◌, ◌<◌, ◌≤◌, Some};
ghost use Rattle.std.proofs.Props.{props};
ghost use Rattle.placement.specs.Place.{home, often, nth, strip, word_of, Valid};
ghost use Rattle.layout.specs.Layouts.{shown};
ghost use Rattle.layout.specs.Words.{word_in};
ghost use Rattle.plans.specs.Entries.{position_with};
ghost use Rattle.plans.specs.Views.{plan_of};

use crate::find::{occurrence, occurrences};
use crate::group::{Group, GroupAt};
use crate::layout::Layout;
use crate::seat::Seat;
use crate::starts::LineAt;
use crate::word::Word;
use placement::Place;

#[derive(Clone, Copy)]
pub(crate) struct Coordinates<'a> {
    pub tile: u64,
    pub number: usize,
    pub group: Group<'a>,
    pub row: u64,
    pub seat: Seat,
}

// A place that the frame has, and the position of the first entry that lists its component.
#[derive(Clone, Copy)]
pub(crate) struct Found<'a> {
    pub layout: &'a Layout,
    pub position: usize,
    pub place: Place,
    ghost first: { position_with place.index (shown layout.now).entries ≡ Some position } by { Prim.hlevel props },
    ghost valid: { Valid (plan_of (shown layout.now)) place },
}

impl<'a> Found<'a> {
    ghost use Rattle.layout.specs.Coordinates.{Grouped, Stands};

    // The group of the place's component.
    fn number(&self) -> usize
        ensures { result ≡ home (plan_of (shown self.now.layout.now)) self.now.place.index }
    {
        self.layout.frame.group_number(self.position)
    }

    // How often the place's component stands in the cycle of its group.
    fn often(&self, group: Group) -> u64
        requires { Grouped (shown self.now.layout.now) self.now.place group }
        ensures is { result ≡ often (plan_of (shown self.now.layout.now)) self.now.place.index }
        ensures few { result ≤ 16 }
    {
        occurrences(group.line.cycle, self.place.index)
    }

    // The slot in which the component stands for the k-th time.
    fn slot(&self, group: Group, k: u64) -> usize
        requires group { Grouped (shown self.now.layout.now) self.now.place group }
        requires inside { k < often (plan_of (shown self.now.layout.now)) self.now.place.index }
        ensures { result ≡ nth self.now.place.index k (strip (plan_of (shown self.now.layout.now)) (home (plan_of (shown self.now.layout.now)) self.now.place.index)).cycle }
    {
        occurrence(group.line.cycle, self.place.index, k)
    }

    fn coordinates(&self) -> Coordinates<'a>
        ensures { Stands (shown self.now.layout.now) self.now.place result }
    {
        let number = self.number();
        let group = GroupAt {
            frame: &self.layout.frame,
            number,
        }
        .group();
        let place = self.place;
        let often = self.often(group);
        let wide = group.line.count * often;
        let column = place.column % wide;
        let slot = self.slot(group, column % often);
        let columns = self.layout.frame.parts.tile_columns;
        Coordinates {
            tile: place.row / group.rows * columns + place.column / wide,
            number,
            group,
            row: place.row % group.rows,
            seat: Seat {
                turn: column / often,
                slot,
            },
        }
    }

    // The word of the place.
    pub(crate) fn word(&self) -> Word
        ensures is { word_in result ≡ word_of (plan_of (shown self.now.layout.now)) self.now.place }
        ensures small { result.size.0 ≤ 9 }
    {
        let at = self.coordinates();
        let line = LineAt {
            layout: self.layout,
            tile: at.tile,
            group: at.number,
            row: at.row,
        };
        at.group.line.word(at.seat).moved(line.start())
    }
}
