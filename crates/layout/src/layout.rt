// The layout of a frame: what it is made of, and the bytes of a frame.
ghost use Rattle.std.specs.Prelude.{◌≡◌, ◌≤◌};
ghost use Rattle.layout.specs.Parts.{view_of};
ghost use Rattle.plans.specs.Views.{Accepted, size_of};

use crate::frame::Frame;
use plans::Bytes;

mod asking;
mod making;

// A layout says where every bit of a frame lies: from two boxes, a width and a height.
#[derive(Clone, Copy)]
pub struct Layout {
    pub(crate) frame: Frame,
    size: Bytes,
    ghost accepted: { ∥ Accepted (view_of frame.parts) ∥₁ },
    ghost sized: { size.0 ≡ size_of (view_of frame.parts) },
    ghost short: { size.0 ≤ 4294967295 },
}
