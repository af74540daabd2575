use crate::{Cell, List};

/// A line that gives bytes, from the address `at` on. Lines are counted from 1.
#[derive(Drop)]
pub struct Placed<'a> {
    pub line: u32,
    pub at: u32,
    pub cells: List<Cell<'a>>,
}
