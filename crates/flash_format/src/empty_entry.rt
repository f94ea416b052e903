//! Empty entries: free space.

ghost use Rattle.std.specs.Prelude.{◌≡◌, ◌≤◌};
ghost use Rattle.flash_format.specs.Made.{empty_header};

use crate::head::{HEADER_LENGTH, Head, NULL};

/// Returns an empty entry's header for a cell of `cell_len` bytes.
///
/// With `kept`, as at a region's end, the free space excludes the cell's last four bytes.
#[tactic(auto, unfolding(crate::specs::Made::empty_header, crate::specs::Head::head_bytes))]
pub fn empty_header(cell_len: u32, kept: bool) -> [u8; HEADER_LENGTH]
    requires { 64 ≤ cell_len }
    ensures { result ≡ empty_header cell_len kept }
{
    let spared = if kept { 4 } else { 0 };
    let head = Head {
        len: cell_len - HEADER_LENGTH as u32 - spared,
        kind: NULL,
        attributes_offset: 0,
        offset: HEADER_LENGTH as u32,
    };
    let mut out = [0; HEADER_LENGTH];
    out[..Head::LENGTH].copy_from_slice(&head.write());
    out
}
