// Where lines and tiles begin: each is the sum of what comes before it.
ghost use Rattle.std.specs.Prelude.{◌≡◌, ℕ, ◌*◌, ◌^◌, ◌<◌, ◌≤◌, length};
ghost use Rattle.placement.specs.Grid.{by_group, by_row, by_tile, summed, area as area_in, line as line_in, tile_of};
ghost use Rattle.placement.specs.Place.{grid};
ghost use Rattle.layout.specs.Parts.{view_of};
ghost use Rattle.plans.specs.Views.{strips_by, plan_of, order_of, size_of};

use crate::frame::Frame;
use crate::group::GroupAt;
use crate::line::up_to;
use crate::order::Order;
use plans::Bytes;

// The sum of what a function gives below `g`.
fn sum_below<F: Fn(usize) -> Bytes>(g: usize, each: F) -> Bytes
    requires few { g ≤ 16 }
    requires callable { (h : ℕ) → h < g → F.pre each h }
    requires small { (h : ℕ) (r : _) → h < g → F.post each h r → r.0 ≤ 2 ^ 53 }
    ensures is { (f : ℕ → ℕ) → ((h : ℕ) (r : _) → h < g → F.post each h r → r.0 ≡ f h) → result.0 ≡ summed f g }
    ensures near { (m : ℕ) → ((h : ℕ) (r : _) → h < g → F.post each h r → r.0 ≤ m) → result.0 ≤ 16 * m }
{
    // By a loop: of a chain of `map` and `sum` the sum is proved, and its bound is not.
    let mut sum = 0;
    for h in 0..g {
        sum += each(h).0;
    }
    Bytes(sum)
}

// The first groups of a frame, so many.
#[derive(Clone, Copy)]
pub(crate) struct Groups<'a> {
    pub frame: &'a Frame,
    pub count: usize,
    ghost inside: { count ≤ length (strips_by frame.now.parts.interleave (view_of frame.now.parts)) },
}

impl<'a> GroupAt<'a> {
    // The bytes of a line of the group.
    pub(crate) fn line(&self) -> Bytes
        ensures is { result.0 ≡ line_in (grid (plan_of (view_of self.now.frame.now.parts))) self.now.number }
        ensures near { result.0 ≤ 2 ^ 33 }
    {
        self.group().line.bytes()
    }

    // The bytes of the group's lines in a tile.
    fn area(&self) -> Bytes
        ensures is { result.0 ≡ area_in (grid (plan_of (view_of self.now.frame.now.parts))) self.now.number }
        ensures near { result.0 ≤ 2 ^ 48 }
    {
        let group = self.group();
        Bytes(group.rows * group.line.bytes().0)
    }

    // The bytes of a tile that holds one group alone.
    pub(crate) fn tile_alone(&self) -> Bytes
        ensures is { result.0 ≡ tile_of by_tile (grid (plan_of (view_of self.now.frame.now.parts))) self.now.number }
        ensures near { result.0 ≤ 2 ^ 53 }
    {
        up_to(self.area(), self.frame.parts.packing.tile_align)
    }

    // The bytes of a tile; in interleave 4, of a tile of the group.
    pub(crate) fn tile(&self) -> Bytes
        ensures { result.0 ≡ tile_of (order_of self.now.frame.now.parts.interleave) (grid (plan_of (view_of self.now.frame.now.parts))) self.now.number }
    {
        match self.frame.order() {
            Order::ByGroup => self.frame.tile_by_group(),
            Order::ByRow => self.frame.tile_by_row(),
            Order::ByTile => self.tile_alone(),
        }
    }

    // The groups before it.
    pub(crate) fn earlier(&self) -> Groups<'a>
        ensures frame { result.frame.now ≡ self.now.frame.now }
        ensures count { result.count ≡ self.now.number }
    {
        Groups {
            frame: self.frame,
            count: self.number,
        }
    }
}

impl<'a> Groups<'a> {
    fn at(&self, number: usize) -> GroupAt<'a>
        requires { number < self.now.count }
        ensures frame { result.frame.now ≡ self.now.frame.now }
        ensures number { result.number ≡ number }
    {
        GroupAt {
            frame: self.frame,
            number,
        }
    }

    // The bytes of a tile's lines of these groups.
    pub(crate) fn areas(&self) -> Bytes
        ensures is { result.0 ≡ summed (area_in (grid (plan_of (view_of self.now.frame.now.parts)))) self.now.count }
        ensures near { result.0 ≤ 2 ^ 52 }
    {
        sum_below(self.count, |h| self.at(h).area())
    }

    // The bytes of one line of each of these groups.
    pub(crate) fn lines(&self) -> Bytes
        ensures is { result.0 ≡ summed (line_in (grid (plan_of (view_of self.now.frame.now.parts)))) self.now.count }
        ensures near { result.0 ≤ 2 ^ 37 }
    {
        sum_below(self.count, |h| self.at(h).line())
    }

    // The bytes of one tile of each of these groups, where each tile holds one group alone.
    fn tiles_alone(&self) -> Bytes
        ensures is { result.0 ≡ summed (tile_of by_tile (grid (plan_of (view_of self.now.frame.now.parts)))) self.now.count }
        ensures near { result.0 ≤ 2 ^ 57 }
    {
        sum_below(self.count, |h| self.at(h).tile_alone())
    }

    // The bytes of all such tiles, which may be more than 64 bits count.
    pub(crate) fn tiles(&self) -> u128
        ensures { result ≡ summed (λ h. (grid (plan_of (view_of self.now.frame.now.parts))).tiles * tile_of by_tile (grid (plan_of (view_of self.now.frame.now.parts))) h) self.now.count }
    {
        self.frame.all_tiles(self.tiles_alone())
    }
}

impl Frame {
    // All groups.
    pub(crate) fn groups(&self) -> Groups
        ensures frame { result.frame.now ≡ self.now }
        ensures count { result.count ≡ length (strips_by self.now.parts.interleave (view_of self.now.parts)) }
    {
        Groups {
            frame: self,
            count: self.group_count(),
        }
    }

    // The lines in a tile of the first group, or 0 where there is none.
    fn first_rows(&self) -> u64
        ensures is { result ≡ ((grid (plan_of (view_of self.now.parts))).group 0).rows }
        ensures few { result ≤ 32768 }
    {
        if self.group_count() == 0 {
            0
        } else {
            let first = GroupAt {
                frame: self,
                number: 0,
            };
            first.group().rows
        }
    }

    // The bytes of a tile in which the lines of one group precede the next group's.
    pub(crate) fn tile_by_group(&self) -> Bytes
        ensures is { result.0 ≡ tile_of by_group (grid (plan_of (view_of self.now.parts))) 0 }
        ensures near { result.0 ≤ 2 ^ 53 }
    {
        up_to(self.groups().areas(), self.parts.packing.tile_align)
    }

    // The bytes of a tile in which each row gives a line of each group.
    pub(crate) fn tile_by_row(&self) -> Bytes
        ensures is { result.0 ≡ tile_of by_row (grid (plan_of (view_of self.now.parts))) 0 }
        ensures near { result.0 ≤ 2 ^ 53 }
    {
        let rows = self.first_rows();
        let each = self.groups().lines();
        up_to(Bytes(rows * each.0), self.parts.packing.tile_align)
    }

    fn tile_count(&self) -> u64
        ensures is { result ≡ (grid (plan_of (view_of self.now.parts))).tiles }
        ensures few { result ≤ 2 ^ 30 }
    {
        self.parts.tile_rows * self.parts.tile_columns
    }

    // So many bytes for each tile, which may be more than 64 bits count.
    fn all_tiles(&self, each: Bytes) -> u128
        requires { each.0 ≤ 2 ^ 57 }
        ensures is { result ≡ (grid (plan_of (view_of self.now.parts))).tiles * each.0 }
        ensures near { result ≤ 2 ^ 87 }
    {
        u128::from(self.tile_count()) * u128::from(each.0)
    }

    // The bytes of a frame, which may be more than 64 bits count.
    pub(crate) fn frame_bytes(&self) -> u128
        ensures { result ≡ size_of (view_of self.now.parts) }
    {
        match self.order() {
            Order::ByGroup => self.all_tiles(self.tile_by_group()),
            Order::ByRow => self.all_tiles(self.tile_by_row()),
            Order::ByTile => self.groups().tiles(),
        }
    }
}
