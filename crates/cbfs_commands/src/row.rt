//! The printed row of a cell.

ghost use Rattle.std.specs.Prelude.{◌≡◌, ◌+◌, ◌≤◌, length, unwrap_or};
ghost use Rattle.std.specs.Fmt.{decimal};
ghost use Rattle.std.specs.Option.{ForSome, option_copied};
ghost use Rattle.arrayvec.specs.ArrayVec.{array_vec_len};
ghost use Rattle.flash_format.specs.Texts.{Pushes, hexadecimal};
ghost use Rattle.cbfs_commands.specs.Rows.{row_text};

use arrayvec::ArrayVec;
use flash_format::{Head, compression_name, push_hexadecimal, push_name, push_text, type_name};
use itoa::Buffer;

/// The maximum length of a row: a name of 255 escaped bytes, and the other fields.
pub const ROW_LEN: usize = 1152;

/// The buffer of a row. A listing reuses a single buffer, because creation would zero it.
pub type Row = ArrayVec<u8, ROW_LEN>;

/// Appends a number in decimal. The caller leaves room for 40 bytes.
pub fn push_decimal(row: &mut Row, n: u32)
    requires { array_vec_len row.old + 40 ≤ ROW_LEN }
    ensures { Pushes row.old (decimal n) 40 row.new }
{
    let mut buffer = Buffer::new();
    push_text(row, buffer.format(n).as_bytes());
}

/// Appends a name of at most 12 letters, or else a number.
fn push_name_or(row: &mut Row, name: Option<&str>, value: u32)
    requires room { array_vec_len row.old + 18 ≤ ROW_LEN }
    requires short { ForSome name (λ n. length n.now ≤ 12) }
    ensures { Pushes row.old (unwrap_or (option_copied name.entry) (hexadecimal value)) 18 row.new }
{
    match name {
        Some(name) => push_text(row, name.as_bytes()),
        None => push_hexadecimal(row, u64::from(value)),
    }
}

/// Replaces the buffer's content with a cell's row.
#[tactic(auto, unfolding(crate::specs::Rows::row_text))]
pub fn set_row_text(row: &mut Row, at: u64, head: &Head, name: Option<&[u8]>, compression: u32)
    requires { ForSome name (λ n. length n.now ≤ 255) }
    ensures { row.new.items ≡ row_text at head.now (option_copied name.entry) compression }
{
    row.clear();
    match name {
        Some(name) => push_name(row, name),
        None => push_text(row, b"(empty)"),
    }
    push_text(row, b"\t");
    push_hexadecimal(row, at);
    push_text(row, b"\t");
    push_name_or(row, type_name(head.kind), head.kind);
    push_text(row, b"\t");
    push_decimal(row, head.len);
    push_text(row, b"\t");
    push_name_or(row, compression_name(compression), compression);
    push_text(row, b"\n");
}
