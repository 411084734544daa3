// Where a line begins: after the tiles before its own, and in its tile after the lines before it.
ghost use Rattle.std.specs.Prelude.{◌≡◌, ◌^◌, ◌≤◌};
ghost use Rattle.placement.specs.Grid.{by_group, by_row, by_tile, start_of, frame_of, start as start_in};
ghost use Rattle.placement.specs.Place.{grid};
ghost use Rattle.layout.specs.Layouts.{shown};
ghost use Rattle.layout.specs.Starting.{InTile};
ghost use Rattle.plans.specs.Views.{plan_of};

use crate::group::GroupAt;
use crate::layout::Layout;
use crate::order::Order;
use plans::Bytes;

// A line of a layout, by its tile, its group and its row in the tile.
#[derive(Clone, Copy)]
pub(crate) struct LineAt<'a> {
    pub layout: &'a Layout,
    pub tile: u64,
    pub group: usize,
    pub row: u64,
    ghost inside: { InTile (shown layout.now) tile group row },
}

impl<'a> LineAt<'a> {
    fn group(&self) -> GroupAt<'a>
        ensures frame { result.frame.now ≡ self.now.layout.now.frame }
        ensures number { result.number ≡ self.now.group }
    {
        GroupAt {
            frame: &self.layout.frame,
            number: self.group,
        }
    }

    // The lines of one group precede the next group's.
    fn start_by_group(&self) -> Bytes
        requires { frame_of by_group (grid (plan_of (shown self.now.layout.now))) ≤ 4294967295 }
        ensures is { result.0 ≡ start_of by_group (grid (plan_of (shown self.now.layout.now))) self.now.tile self.now.group self.now.row }
        ensures near { result.0 ≤ 2 ^ 60 }
    {
        let each = self.layout.frame.tile_by_group();
        let group = self.group();
        let before = group.earlier().areas();
        let line = group.line();
        Bytes(self.tile * each.0 + (before.0 + self.row * line.0))
    }

    // Each row gives a line of each group.
    fn start_by_row(&self) -> Bytes
        requires { frame_of by_row (grid (plan_of (shown self.now.layout.now))) ≤ 4294967295 }
        ensures is { result.0 ≡ start_of by_row (grid (plan_of (shown self.now.layout.now))) self.now.tile self.now.group self.now.row }
        ensures near { result.0 ≤ 2 ^ 60 }
    {
        let frame = &self.layout.frame;
        let each = frame.tile_by_row();
        let row = frame.groups().lines();
        let before = self.group().earlier().lines();
        Bytes(self.tile * each.0 + (self.row * row.0 + before.0))
    }

    // All tiles of one group precede the next group's.
    fn start_by_tile(&self) -> Bytes
        requires { frame_of by_tile (grid (plan_of (shown self.now.layout.now))) ≤ 4294967295 }
        ensures is { result.0 ≡ start_of by_tile (grid (plan_of (shown self.now.layout.now))) self.now.tile self.now.group self.now.row }
        ensures near { result.0 ≤ 2 ^ 60 }
    {
        let group = self.group();
        let before = group.earlier().tiles();
        let each = group.tile_alone();
        let line = group.line();
        Bytes(before as u64 + (self.tile * each.0 + self.row * line.0))
    }

    // The first byte of the line.
    pub(crate) fn start(&self) -> Bytes
        ensures is { result.0 ≡ start_in (grid (plan_of (shown self.now.layout.now))) self.now.tile self.now.group self.now.row }
        ensures near { result.0 ≤ 2 ^ 60 }
    {
        match self.layout.frame.order() {
            Order::ByGroup => self.start_by_group(),
            Order::ByRow => self.start_by_row(),
            Order::ByTile => self.start_by_tile(),
        }
    }
}
