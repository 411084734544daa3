// In which order the lines of a frame follow one another.
ghost use Rattle.std.specs.Prelude.{◌≡◌};
ghost use Rattle.layout.specs.Orders.{order_in};
ghost use Rattle.plans.specs.Views.{order_of};

use boxes::Interleave;

#[derive(Clone, Copy, Debug, PartialEq, Eq)]
pub(crate) enum Order {
    // In a tile the lines of one group before the next group's.
    ByGroup,
    // A line of each group, row by row.
    ByRow,
    // All tiles of one group before the next group's.
    ByTile,
}

impl From<Interleave> for Order {
    ghost from_gives = { λ interleave order. order_in order ≡ order_of interleave };

    fn from(interleave: Interleave) -> Order {
        match interleave {
            Interleave::Component | Interleave::Pixel | Interleave::Mixed | Interleave::MultiY =>
                Order::ByGroup,
            Interleave::Row => Order::ByRow,
            Interleave::TileComponent => Order::ByTile,
        }
    }
}
