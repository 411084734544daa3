// A box with the header that it is to have: its size field is its length, so 32 bits count its bytes.
ghost use Rattle.std.specs.Prelude.{◌≡◌, ◌^◌, ◌<◌, length, IfOk};
ghost use Rattle.fields.specs.Items.{list_at};
ghost use Rattle.std.specs.Result.{result_map_both};
ghost use Rattle.fields.specs.Header.{header_of};

use crate::element::Element;
use crate::item::Item;
use crate::reader::Reader;
use crate::table::Table;
use fault::Fault;

#[derive(Clone, Copy)]
pub struct Whole<'a> {
    pub reader: Reader<'a>,
    ghost short: { length reader.bytes.now < 2 ^ 32 },
}

impl<'a> Whole<'a> {
    // Tests the header.
    pub fn new(reader: Reader<'a>, word: u32) -> Result<Whole<'a>, Fault>
        ensures tested { result_map_both (λ _. tt) (λ f. f) result ≡ header_of reader.entry.layer word reader.entry.bytes.now }
        ensures same { IfOk result (λ whole. whole.reader ≡ reader.entry) }
    {
        reader.header(word)?;
        Ok(Whole { reader })
    }

    // A list: the number of its elements, and then the elements one after another.
    pub fn list<T: Element>(self, at: usize) -> Result<Item<Table<T>>, Fault>
        ensures { result ≡ list_at T.BLANK (T.element_at self.entry.reader.layer) self.entry.reader.layer self.entry.reader.bytes.now at }
    {
        let count = self.reader.count(at)?;
        let mut value = Table::of(&[]);
        let mut next = at + 4;
        for _ in 0..count {
            let item = T::read(self, next)?;
            value.push(item.value);
            next = item.next;
        }
        Ok(Item { value, next })
    }
}
