// A place is where one value of a frame stands: the component with a listed index, and a column and a row of
// that component's own grid.
#[derive(Clone, Copy, Debug, PartialEq, Eq)]
pub struct Place {
    pub index: u16,
    pub column: u64,
    pub row: u64,
}
