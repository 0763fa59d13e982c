use spec_log::{Cell, Values};

/// A change as a statement plans it: the cell, what it held and what it holds.
#[derive(Debug, Drop)]
pub struct Planned {
    pub cell: Cell,
    pub before: Values<u8>,
    pub after: Values<u8>,
}
