// One component of the definition box: its type, and the URI that says what a type of the user's own means.
ghost use Rattle.std.specs.Prelude.{◌≡◌, ◌+◌, ◌^◌, ◌<◌, ◌≤◌, length, position, ◌==◌};
ghost use Rattle.definition.specs.Components.{uri_by, part};
ghost use Rattle.definition.specs.Encoded.{described, described_bytes};
ghost use Rattle.fields.specs.Put.{placed};

use fault::{Fault, Reason};
use fields::{Element, Item, Reader, Whole, put, put_half};

// A part of the box, by its offset and length.
#[derive(Clone, Copy, Debug, PartialEq, Eq)]
pub struct Span {
    pub at: u32,
    pub len: u32,
}

#[derive(Clone, Copy, Debug, PartialEq, Eq)]
pub struct Component {
    // The type's number, as it is stored: 0 to 16 are the standard's, those from 0x8000 on the user's own.
    pub number: u16,
    // Where the URI stands, without the zero byte that ends it.
    pub uri: Option<Span>,
}

impl Span {
    // That part of a text, as much of it as is there.
    pub(crate) fn of(self, text: &[u8]) -> &[u8]
        ensures value { result.now ≡ part text.now self }
        ensures bound { length result.now < 2 ^ 32 }
    {
        let rest = text.get(self.at as usize..).unwrap_or(&[]);
        rest.get(..self.len as usize).unwrap_or(rest)
    }
}

// How many bytes of a text stand before its first zero byte.
fn before_zero(text: &[u8]) -> Option<usize>
    ensures { result ≡ position (λ byte. byte == 0) text.now }
{
    text.iter().position(|byte| *byte == 0)
}

// How long the URI is that begins at an offset, without the zero byte that ends it.
fn uri_at(reader: Reader, at: usize) -> Result<usize, Fault>
    requires { at ≤ length reader.bytes.now }
    ensures { result ≡ uri_by reader.entry.layer reader.entry.bytes.now at }
{
    before_zero(&reader.bytes[at..]).ok_or(reader.refuses(Reason::Extent, at))
}

impl Element for Component {
    ghost use Rattle.definition.specs.Components.{plain, component_by};

    ghost BLANK = { plain };

    ghost element_at = { component_by };

    const BLANK: Component = Component {
        number: 0,
        uri: None,
    };

    fn read(whole: Whole, at: usize) -> Result<Item<Component>, Fault> {
        let reader = whole.reader;
        let number = reader.half(at)?;
        if number > 16 && number < 0x8000 {
            return Err(reader.refuses(Reason::Reserved, at));
        }
        if number < 0x8000 {
            return Ok(Item {
                value: Component { number, uri: None },
                next: at + 2,
            });
        }
        let len = uri_at(reader, at + 2)?;
        let uri = Span {
            at: (at + 2) as u32,
            len: len as u32,
        };
        Ok(Item {
            value: Component {
                number,
                uri: Some(uri),
            },
            next: at + 2 + len + 1,
        })
    }
}

impl Component {
    // The bytes that it takes in a box.
    pub(crate) fn size(&self, text: &[u8]) -> usize
        ensures is { result ≡ length (described_bytes (described text.now self.now)) }
        ensures bound { result ≤ 3 + 2 ^ 32 }
    {
        match self.uri {
            Some(span) => 3 + span.of(text).len(),
            None => 2,
        }
    }

    // Writes it at an offset, and answers where the next one goes.
    pub(crate) fn put(&self, text: &[u8], out: &mut [u8], at: usize) -> usize
        requires { at + length (described_bytes (described text.now self.now)) ≤ length out.old }
        ensures next { result ≡ at + length (described_bytes (described text.now self.now)) }
        ensures bytes { out.new ≡ placed out.old at (described_bytes (described text.now self.now)) }
    {
        put_half(out, at, self.number);
        match self.uri {
            Some(span) => {
                let uri = span.of(text);
                put(out, at + 2, uri);
                put(out, at + 2 + uri.len(), &[0]);
                at + 3 + uri.len()
            }
            None => at + 2,
        }
    }
}
