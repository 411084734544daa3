// Both boxes of one lane; the definition box may be absent.
ghost use Rattle.std.specs.Prelude.{◌≡◌, IfOk};
ghost use Rattle.std.specs.Option.{option_map};
ghost use Rattle.fault.specs.declared.layer.Layer.TheVariants.{DefinitionBox};
ghost use Rattle.boxes.specs.Pairs.{maybe_definition, definition_read, read_boxes, boxes_read, texts, maybe_bytes, type_of};
ghost use Rattle.choices.specs.ComponentTypes.{type_numbered};
ghost use Rattle.fields.specs.Put.{write_answer, written_to};

use choices::ComponentType;
use configuration::Configuration;
use definition::Definition;
use fault::Fault;

#[derive(Clone, Copy, Debug, PartialEq, Eq)]
pub struct Boxes<'a> {
    pub definition: Option<Definition<'a>>,
    pub configuration: Configuration,
}

fn maybe_definition<'a>(bytes: Option<&'a [u8]>) -> Result<Option<Definition<'a>>, Fault>
    ensures components { definition_read result ≡ maybe_definition (option_map (λ x. x.now) bytes.entry) }
    ensures text { IfOk result (λ d. texts d ≡ option_map (λ x. x.now) bytes.entry) }
{
    bytes.map(Definition::read).transpose()
}

impl<'a> Boxes<'a> {
    pub fn read(definition: Option<&'a [u8]>, configuration: &[u8]) -> Result<Boxes<'a>, Fault>
        ensures values { boxes_read result ≡ read_boxes (option_map (λ x. x.now) definition.entry) configuration.now }
        ensures text { IfOk result (λ b. texts b.definition ≡ option_map (λ x. x.now) definition.entry) }
    {
        let definition = maybe_definition(definition)?;
        let configuration = Configuration::read(configuration)?;
        Ok(Boxes {
            definition,
            configuration,
        })
    }

    // Where there is no definition box, none is written.
    pub fn write_definition(&self, out: &mut [u8]) -> Result<usize, Fault>
        ensures answer { result ≡ write_answer DefinitionBox (maybe_bytes self.now.definition) out.old }
        ensures bytes { out.new ≡ written_to (maybe_bytes self.now.definition) out.old }
    {
        match &self.definition {
            Some(definition) => definition.write(out),
            None => Ok(0),
        }
    }

    // The type of the component with this index, where it is defined: in version 1 by the profile.
    pub fn component_type(&self, index: u16) -> Option<ComponentType>
        ensures { result ≡ option_map type_numbered (type_of self.now index) }
    {
        match &self.configuration {
            Configuration::Brief(profile) => profile.component_type(index),
            Configuration::Listed(_) => self
                .definition
                .as_ref()
                .and_then(|definition| definition.component_type(index)),
        }
    }
}
