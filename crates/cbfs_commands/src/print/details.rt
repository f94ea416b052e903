//! The lines after a component's row.

ghost use Rattle.std.specs.Prelude.{◌≡◌, ◌+◌, ◌/◌, ◌≤◌, false, length, map};
ghost use Rattle.flash_format.specs.Head.{is_free};
ghost use Rattle.flash_device.specs.Regions.{bytes_in};
ghost use Rattle.cbfs_walk.specs.Cells.{cell_in};
ghost use Rattle.std.specs.List.{flat_map};
ghost use Rattle.byteorder.specs.Endian.{big_bytes};
ghost use Rattle.hex.specs.Hex.{encode_lower};
ghost use Rattle.arrayvec.specs.ArrayVec.{array_vec_len};
ghost use Rattle.flash_format.specs.Made.{digest_bytes};
ghost use Rattle.flash_format.specs.Components.{cell_attributes};
ghost use Rattle.flash_format.specs.Texts.{Pushes};
ghost use Rattle.cbfs_walk.specs.AttrWalks.{head_of_attribute};
ghost use Rattle.cbfs_commands.specs.Rows.{attribute_line, details, digest_line, hash_line};
ghost use Rattle.cbfs_commands.specs.Outcomes.{HasOutput, IsCellOf, shows};

use crate::row::{ROW_LEN, Row, push_decimal};
use byteorder::{BigEndian, ByteOrder};
use cbfs_requests::Refusal;
use cbfs_walk::{Cell, HashState, attributes, cells_stand_in_their_image, check_hash};
use flash_device::{Flash, Paged, Region, Sink, put_all};
use flash_format::{AttrHead, Digest, digest_text, push_text};

fn push_tag(row: &mut Row, tag: u32)
    requires { array_vec_len row.old + 8 ≤ ROW_LEN }
    ensures { Pushes row.old (encode_lower (big_bytes 4 tag)) 8 row.new }
{
    let mut bytes = [0; 4];
    BigEndian::write_u32(&mut bytes, tag);
    let mut digits = [0; 8];
    let _fits = hex::encode_to_slice(&bytes, &mut digits);
    push_text(row, &digits);
}

#[tactic(auto, unfolding(crate::specs::Rows::attribute_line))]
fn set_attribute_row(row: &mut Row, head: &AttrHead)
    ensures { row.new.items ≡ attribute_line head.now }
{
    row.clear();
    push_text(row, b"\tattr\t0x");
    push_tag(row, head.tag);
    push_text(row, b"\t");
    push_decimal(row, head.len);
    push_text(row, b"\n");
}

fn push_digest(row: &mut Row, digest: &Digest)
    requires { array_vec_len row.old + 128 ≤ ROW_LEN }
    ensures { Pushes row.old (encode_lower (digest_bytes digest.now)) 128 row.new }
{
    let mut digits = [0; 128];
    let n = digest_text(digest, &mut digits);
    push_text(row, &digits[..n]);
}

fn set_digest_row(row: &mut Row, digest: &Digest, verdict: &[u8])
    requires { length verdict.now ≤ 7 }
    ensures { row.new.items ≡ digest_line digest.now verdict.now }
{
    row.clear();
    push_text(row, b"\thash\t");
    push_text(row, digest.algorithm().name().as_bytes());
    push_text(row, b"\t");
    push_digest(row, digest);
    push_text(row, b"\t");
    push_text(row, verdict);
    push_text(row, b"\n");
}

/// Formats the line of the first hash attribute, if any.
#[tactic(auto, unfolding(crate::specs::Rows::hash_line))]
fn set_hash_row(row: &mut Row, state: &HashState)
    ensures { row.new.items ≡ hash_line state.now }
{
    match state {
        HashState::Absent => row.clear(),
        HashState::Valid(digest) => set_digest_row(row, digest, b"valid"),
        HashState::Invalid(digest) => set_digest_row(row, digest, b"invalid"),
        HashState::Unsupported => {
            row.clear();
            push_text(row, b"\thash\tunsupported\n");
        }
    }
}

fn print_attributes<F: Flash, W: Sink>(
    paged: &mut Paged<F>,
    region: Region,
    cell: &Cell,
    row: &mut Row,
    out: &mut W,
) -> Result<(), Refusal>
    requires cell { IsCellOf region cell.now paged.old.device }
    requires used { is_free cell.now.head ≡ false }

    ensures { HasOutput W.Sink (cell.now.head.offset / 8) paged.old paged.new out.old out.new result
        (λ image. shows (flat_map attribute_line
        (map head_of_attribute (cell_attributes (cell_in (bytes_in region image) cell.now))))) }
{
    let mut walk = attributes(cell);
    while let Some(head) = walk.next(paged, region)? {
        set_attribute_row(row, &head);
        put_all(out, row.as_slice())?;
    }
    Ok(())
}

/// Prints a component's attributes and digest.
pub fn print_details<F: Flash, W: Sink>(
    paged: &mut Paged<F>,
    region: Region,
    cell: &Cell,
    row: &mut Row,
    out: &mut W,
) -> Result<(), Refusal>
    requires cell { IsCellOf region cell.now paged.old.device }
    requires used { is_free cell.now.head ≡ false }

    ensures { HasOutput W.Sink (cell.now.head.offset / 8 + (1 + cell.now.span / 3840)) paged.old
        paged.new out.old out.new result
        (λ image. shows (details (cell_in (bytes_in region image) cell.now))) }
{
    print_attributes(paged, region, cell, row, out)?;
    let state = check_hash(paged, region, cell)?;
    set_hash_row(row, &state);
    put_all(out, row.as_slice())?;
    Ok(())
}
