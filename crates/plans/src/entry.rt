// One entry of the layout's table: which component it lists, how its values are stored, and the component's grid.
use crate::units::{Bits, Bytes};
use boxes::{ComponentType, Format};

#[derive(Clone, Copy, Debug, PartialEq, Eq)]
pub struct Entry {
    pub index: u16,
    pub component_type: ComponentType,
    pub format: Format,
    pub depth: Bits,
    // The bytes of the word that holds a value, or 0 where values are packed bit by bit, as in the box: what
    // rests on it tests it once, where a value gets its word.
    pub align: Bytes,
    pub columns: u64,
    pub rows: u64,
}
