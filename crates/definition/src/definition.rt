// The definition box, `cmpd`.
ghost use Rattle.std.specs.Prelude.{◌≡◌, ◌+◌, ◌≤◌, map, length, IfOk};
ghost use Rattle.std.specs.List.{flat_map};
ghost use Rattle.std.specs.Option.{option_map};
ghost use Rattle.fault.specs.declared.layer.Layer.TheVariants.{DefinitionBox};
ghost use Rattle.choices.specs.ComponentTypes.{type_numbered};
ghost use Rattle.definition.specs.Definitions.{read_definition, components_read, defined, component_type, seen, uri_of};
ghost use Rattle.definition.specs.Encoded.{described, described_bytes, definition_bytes, defines};
ghost use Rattle.definition.specs.RoundTrip.{DefinitionExact, DefinitionBack};
ghost use Rattle.fields.specs.Put.{placed, write_answer, written_to};

use crate::component::Component;
use choices::ComponentType;
use fault::{Fault, Layer, Reason};
use fields::{Reader, Table, Whole, put_header, put_word};

pub(crate) const CMPD: u32 = 0x636d_7064;

// A URI as a part of the box: where it begins, and its bytes without the zero byte that ends it.
#[derive(Clone, Copy, Debug, PartialEq, Eq)]
pub struct Uri<'a> {
    pub place: u64,
    pub text: &'a [u8],
}

// The components, with the text that their URIs lie in.
#[derive(Clone, Copy, Debug, PartialEq, Eq)]
pub struct Definition<'a> {
    text: &'a [u8],
    components: Table<Component>,
}

fn read_components(bytes: &[u8]) -> Result<Table<Component>, Fault>
    ensures { result ≡ read_definition bytes.now }
{
    let reader = Reader {
        bytes,
        layer: Layer::DefinitionBox,
    };
    let whole = Whole::new(reader, CMPD)?;
    let components = whole.list(8)?;
    reader.end(components.next)?;
    Ok(components.value)
}

// Writes the components one after another, from the first one's place on.
fn put_components(out: &mut [u8], text: &[u8], components: &[Component])
    requires { 12 + length (flat_map described_bytes (map (described text.now) components.now)) ≤ length out.old }
    ensures { out.new ≡ placed out.old 12 (flat_map described_bytes (map (described text.now) components.now)) }
{
    let mut at = 12;
    for component in components {
        at = component.put(text, out, at);
    }
}

impl<'a> Definition<'a> {
    pub fn read(bytes: &'a [u8]) -> Result<Definition<'a>, Fault>
        ensures components { components_read result ≡ read_definition bytes.now }
        ensures text { IfOk result (λ d. d.text.now ≡ bytes.now) }
        ensures exact { DefinitionExact bytes.now (components_read result) }
    {
        let components = read_components(bytes)?;
        Ok(Definition {
            text: bytes,
            components,
        })
    }

    // The defined components, in their order.
    pub fn components(&self) -> &[Component]
        ensures value { result.now ≡ defined self.now.components }
        ensures few { length result.now ≤ 16 }
    {
        self.components.as_slice()
    }

    // The type of a component, by its position, where it is defined.
    pub fn component_type(&self, index: u16) -> Option<ComponentType>
        ensures { result ≡ option_map type_numbered (component_type self.now.components index) }
    {
        self.components()
            .get(usize::from(index))
            .map(|component| ComponentType::from(component.number))
    }

    // The URI of a component, by its position, where it has one.
    pub fn uri(&self, i: usize) -> Option<Uri<'a>>
        ensures { option_map seen result ≡ uri_of self.now.text.now self.now.components i }
    {
        let text = self.text;
        let span = self.components().get(i)?.uri?;
        Some(Uri {
            place: u64::from(span.at),
            text: span.of(text),
        })
    }

    // The bytes that the box takes.
    pub fn size(&self) -> usize
        ensures is { result ≡ length (definition_bytes (defines self.now)) }
    {
        // No `map` and `sum`: that 12 more fit is then a goal that no short answer closes.
        let mut size = 12;
        for component in self.components() {
            size += component.size(self.text);
        }
        size
    }

    // Writes the box to the front of a buffer, and answers how many bytes it took.
    pub fn write(&self, out: &mut [u8]) -> Result<usize, Fault>
        ensures answer { result ≡ write_answer DefinitionBox (definition_bytes (defines self.now)) out.old }
        ensures bytes { out.new ≡ written_to (definition_bytes (defines self.now)) out.old }
        ensures back { DefinitionBack self.now.text.now self.now.components }
    {
        let size = self.size();
        if out.len() < size {
            return Err(Layer::DefinitionBox.refuses(Reason::Room, 0));
        }
        let components = self.components();
        put_header(out, size as u64, CMPD);
        put_word(out, 8, components.len() as u32);
        put_components(out, self.text, components);
        Ok(size)
    }
}
