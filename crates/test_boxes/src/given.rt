// Both boxes, as they are handed over.
ghost use Rattle.std.specs.Prelude.{◌≡◌, ◌+◌, ◌*◌, ◌↔◌, [], IfOk, IsNone, length};
ghost use Rattle.std.specs.Option.{IfSome};

use crate::bytes::{configuration, definition};
use crate::draft::Draft;
use std::alloc::{AllocError, Global};

#[derive(Drop)]
pub struct Given {
    pub definition: Option<Vec<u8>>,
    pub configuration: Vec<u8>,
}

impl Draft<'_> {
    // The definition box is absent where no types are defined.
    pub fn given(&self, heap: Global) -> Result<Given, AllocError>
        ensures absent { IfOk result (λ given. IsNone given.definition ↔ (self.now.types.now ≡ [])) }
        ensures definition { IfOk result (λ given. IfSome given.definition (λ v. length v.items ≡ 12 + 2 * length self.now.types.now)) }
        ensures configuration { IfOk result (λ given. length given.configuration.items ≡ 44 + 5 * length self.now.entries.now) }
    {
        let types = Some(self.types).filter(|types| !types.is_empty());
        Ok(Given {
            definition: types.map(|types| definition(heap, types)).transpose()?,
            configuration: configuration(heap, self)?,
        })
    }
}
