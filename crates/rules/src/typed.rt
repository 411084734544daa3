// A listing, and the boxes that say which type the component of each index has.
ghost use Rattle.std.specs.Prelude.{◌≡◌};
ghost use Rattle.choices.specs.ComponentTypes.{type_number};
ghost use Rattle.configuration.specs.Encoded.{listed};
ghost use Rattle.rules.specs.Entries.{is_of};

use boxes::{Boxes, ComponentType, Configuration, Entry, Listing};

#[derive(Clone, Copy)]
pub(crate) struct Typed<'a> {
    pub boxes: &'a Boxes<'a>,
    pub listing: &'a Listing,
    // The entries of the listing, cut from its table once.
    pub entries: &'a [Entry],
    ghost listed: { entries.now ≡ listed listing.now },
}

impl<'a> Typed<'a> {
    ghost use Rattle.rules.specs.Typing.{types, entries};

    pub(crate) fn new(boxes: &'a Boxes<'a>, listing: &'a Listing) -> Typed<'a>
        ensures boxes { result.boxes.now ≡ boxes.now }
        ensures listing { result.listing.now ≡ listing.now }
    {
        Typed {
            boxes,
            listing,
            entries: listing.entries(),
        }
    }

    pub(crate) fn entries(&self) -> &'a [Entry]
        ensures { result.now ≡ entries self.now }
    {
        self.entries
    }

    // The number of a component's type, where it is defined. A type made of it at each test would take the rules twice the time.
    fn type_number(&self, index: u16) -> Option<u16>
        ensures { result ≡ types self.now index }
    {
        match &self.boxes.configuration {
            Configuration::Brief(profile) => Some(u16::from(profile.component_type(index)?)),
            Configuration::Listed(_) => self
                .boxes
                .definition
                .as_ref()
                .and_then(|definition| definition.components().get(usize::from(index)))
                .map(|component| component.number),
        }
    }

    // Whether the entry's component has this type. By number and not by `==`: `Other` can be made of a number that the standard has.
    pub(crate) fn is_of(&self, wanted: ComponentType, entry: &Entry) -> bool
        ensures { result ≡ is_of (types self.now) (type_number wanted) entry.now }
    {
        match self.type_number(entry.index) {
            Some(found) => found == u16::from(wanted),
            None => false,
        }
    }
}
