// What a layout says of a frame, its lines and its tiles.
ghost use Rattle.std.specs.Prelude.{◌≡◌, cond, length, Some, None, nat_lt};
ghost use Rattle.layout.specs.Layouts.{shown, line_size, tile_size};
ghost use Rattle.plans.specs.Views.{size_of, strip_at};

use super::Layout;
use crate::group::GroupAt;
use plans::Entry;

impl Layout {
    // The bytes of a frame.
    pub fn size(&self) -> u64
        ensures { result ≡ size_of (shown self.now) }
    {
        self.size.0
    }

    pub fn width(&self) -> u32
        ensures { result ≡ (shown self.now).width }
    {
        self.frame.parts.width
    }

    pub fn height(&self) -> u32
        ensures { result ≡ (shown self.now).height }
    {
        self.frame.parts.height
    }

    // The table, as it was listed.
    pub fn entries(&self) -> &[Entry]
        ensures { result.now ≡ (shown self.now).entries }
    {
        self.frame.listed()
    }

    // The group that has the entry at a position of the list.
    fn group_of(&self, position: usize) -> Option<usize>
        ensures { result ≡ cond (nat_lt position (length (shown self.now).entries)) (Some (strip_at (shown self.now).interleave position)) None }
    {
        if position < self.frame.listed().len() {
            Some(self.frame.group_number(position))
        } else {
            None
        }
    }

    // The bytes of a line that holds the entry at a position of the list.
    pub fn line_size(&self, position: usize) -> Option<u64>
        ensures { result ≡ line_size (shown self.now) position }
    {
        let number = self.group_of(position)?;
        let group = GroupAt {
            frame: &self.frame,
            number,
        };
        Some(group.line().0)
    }

    // The bytes of a tile that holds the entry at a position of the list; in interleave 4, of a tile of that entry.
    pub fn tile_size(&self, position: usize) -> Option<u64>
        ensures { result ≡ tile_size (shown self.now) position }
    {
        let number = self.group_of(position)?;
        let group = GroupAt {
            frame: &self.frame,
            number,
        };
        Some(group.tile().0)
    }
}
