// One entry of the configuration box: which component it lists, and how its values are stored.
ghost use Rattle.std.specs.Prelude.{◌≡◌, ◌+◌, ◌≤◌, length};
ghost use Rattle.configuration.specs.Encoded.{entry_bytes};
ghost use Rattle.fields.specs.Put.{placed};

use crate::choice::choice_at;
use choices::Format;
use fault::Fault;
use fields::{Element, Item, Whole, put};

#[derive(Clone, Copy, Debug, PartialEq, Eq)]
pub struct Entry {
    // Which component of the definition, by its position there.
    pub index: u16,
    pub depth_less_one: u8,
    pub format: Format,
    // The bytes of the word that holds a value, or 0 where values are packed bit by bit: the number as it is stored.
    pub align: u8,
}

impl Entry {
    // The bits of a value, 1 to 256.
    pub fn depth(&self) -> u16
        ensures { result ≡ self.now.depth_less_one + 1 }
    {
        u16::from(self.depth_less_one) + 1
    }

    pub(crate) fn put(&self, out: &mut [u8], at: usize)
        requires { at + 5 ≤ length out.old }
        ensures { out.new ≡ placed out.old at (entry_bytes self.now) }
    {
        let [high, low] = self.index.to_be_bytes();
        let format = u8::from(self.format);
        put(
            out,
            at,
            &[high, low, self.depth_less_one, format, self.align],
        );
    }
}

impl Element for Entry {
    ghost use Rattle.configuration.specs.Entries.{blank, entry_by};

    ghost BLANK = { blank };

    ghost element_at = { entry_by };

    const BLANK: Entry = Entry {
        index: 0,
        depth_less_one: 0,
        format: Format::Integer,
        align: 0,
    };

    fn read(whole: Whole, at: usize) -> Result<Item<Entry>, Fault> {
        let reader = whole.reader;
        let index = reader.half(at)?;
        let depth_less_one = reader.byte(at + 2)?;
        let format = choice_at(reader, at + 3)?;
        let align = reader.byte(at + 4)?;
        Ok(Item {
            value: Entry {
                index,
                depth_less_one,
                format,
                align,
            },
            next: at + 5,
        })
    }
}
