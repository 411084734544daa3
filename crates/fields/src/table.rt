// A list of at most sixteen, in place since the library takes no heap: the elements, and blanks behind them.
// No `impl Model`: a struct that holds a reference beside a struct with a model is not covered in a `Result` that goes through `?`.
ghost use Rattle.std.specs.Prelude.{◌≡◌, ◌+◌, ◌<◌, ◌≤◌, length, take, slice_set};
ghost use Rattle.fields.specs.Items.{items, table_of};

use crate::element::Element;

#[derive(Clone, Copy, Debug, PartialEq, Eq)]
pub struct Table<T> {
    // So many slots, from the first on, hold an element.
    count: u8,
    slots: [T; 16],
}

impl<T: Element> Table<T> {
    // The first sixteen of them.
    pub fn of(elements: &[T]) -> Table<T>
        ensures { result ≡ table_of T.BLANK (take 16 elements.now) }
    {
        let first = &elements[..elements.len().min(16)];
        let mut slots = [T::BLANK; 16];
        slots[..first.len()].copy_from_slice(first);
        Table {
            count: first.len() as u8,
            slots,
        }
    }

    pub fn as_slice(&self) -> &[T]
        ensures value { result.now ≡ items self.now }
        ensures few { length result.now ≤ 16 }
    {
        let n = usize::from(self.count).min(16);
        &self.slots[..n]
    }

    pub(crate) fn push(&mut self, element: T)
        requires { self.old.count < 16 }
        ensures { self.new ≡ record { count = self.old.count + 1; slots = slice_set self.old.slots self.old.count element } }
    {
        self.slots[usize::from(self.count)] = element;
        self.count += 1;
    }
}
