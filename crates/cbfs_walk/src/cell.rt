//! Cells of a region.
use flash_format::Head;

/// A cell, with its position in the region and its length in bytes.
#[derive(Clone, Copy, Debug, PartialEq, Eq)]
pub struct Cell {
    pub at: u64,
    pub head: Head,
    pub span: u64,
}
