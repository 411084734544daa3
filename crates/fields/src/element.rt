// What a list in a box is made of: elements one after another, each read where the one before it ends.
ghost use Rattle.std.specs.Prelude.{◌≡◌, ℕ, List, Result};
ghost use Rattle.fault.specs.declared.fault.Fault.{Fault};
ghost use Rattle.fault.specs.declared.layer.Layer.{Layer};
ghost use Rattle.fields.specs.declared.item.Item.{Item};

use crate::item::Item;
use crate::whole::Whole;
use fault::Fault;

pub trait Element: Copy {
    ghost BLANK: { Self };

    ghost element_at: { Layer → List ℕ → ℕ → Result (Item Self) Fault };

    // What stands in a table where there is no element.
    const BLANK: Self;

    fn read(whole: Whole, at: usize) -> Result<Item<Self>, Fault>
        ensures { result ≡ element_at whole.entry.reader.layer whole.entry.reader.bytes.now at };
}
