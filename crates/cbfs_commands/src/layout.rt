//! The command `layout`.

ghost use Rattle.std.specs.Prelude.{◌≡◌, ◌+◌, ◌/◌, ◌≤◌, length};
ghost use Rattle.std.specs.List.{flat_map};
ghost use Rattle.flash_format.specs.Flashmap.{area_len, map_len};
ghost use Rattle.flash_map.specs.Fmap.{areas_of};
ghost use Rattle.cbfs_commands.specs.Rows.{map_line, area_line};
ghost use Rattle.cbfs_commands.specs.Outcomes.{layout};
ghost use Rattle.cbfs_commands.specs.Outcomes.{HasOutput, shows};

use crate::row::{Row, push_decimal};
use arrayvec::ArrayVec;
use cbfs_requests::Refusal;
use flash_device::{Flash, Paged, Sink, put_all};
use flash_format::{Area, push_hexadecimal, push_name, push_text};
use flash_map::{FoundMap, area, find_fmap};

#[tactic(auto, unfolding(crate::specs::Rows::map_line))]
fn set_map_row(row: &mut Row, map: &FoundMap)
    ensures { row.new.items ≡ map_line map.now }
{
    row.clear();
    push_text(row, b"fmap");
    push_text(row, b"\t");
    push_hexadecimal(row, map.at);
    push_text(row, b"\t");
    push_name(row, map.head.text());
    push_text(row, b"\t");
    push_decimal(row, map.head.size);
    push_text(row, b"\t");
    push_decimal(row, u32::from(map.head.nareas));
    push_text(row, b"\n");
}

#[tactic(auto, unfolding(crate::specs::Rows::area_line))]
fn set_area_row(row: &mut Row, area: &Area)
    ensures { row.new.items ≡ area_line area.now }
{
    row.clear();
    push_name(row, area.text());
    push_text(row, b"\t");
    push_hexadecimal(row, u64::from(area.offset));
    push_text(row, b"\t");
    push_decimal(row, area.size);
    push_text(row, b"\t");
    push_hexadecimal(row, u64::from(area.flags));
    push_text(row, b"\n");
}

fn list_areas<F: Flash, W: Sink>(
    paged: &mut Paged<F>,
    map: &FoundMap,
    row: &mut Row,
    out: &mut W,
) -> Result<(), Refusal>
    requires { map.now.at + map_len map.now.head ≤ length paged.old.device.content }

    ensures { HasOutput W.Sink map.now.head.nareas paged.old paged.new out.old out.new result
        (λ image. shows (flat_map area_line (areas_of image map.now))) }
{
    for i in 0..map.head.nareas {
        let listed = area(paged, map, i)?;
        set_area_row(row, &listed);
        put_all(out, row.as_slice())?;
    }
    Ok(())
}

/// Prints the offset and the areas of the image's map.
#[tactic(auto, unfolding(crate::specs::Outcomes::layout))]
pub fn layout<F: Flash, W: Sink>(paged: &mut Paged<F>, out: &mut W) -> Result<(), Refusal>
    ensures { HasOutput W.Sink (length paged.old.device.content / 2 + length
        paged.old.device.content / area_len + 8) paged.old paged.new out.old out.new result layout }
{
    let Some(map) = find_fmap(paged)? else {
        return Err(Refusal::NoFmap);
    };
    let mut row = ArrayVec::new();
    set_map_row(&mut row, &map);
    put_all(out, row.as_slice())?;
    list_areas(paged, &map, &mut row, out)
}
