//! The line on a content that does not fit into a region, and on the largest content that fits.

ghost use Rattle.std.specs.Prelude.{◌≡◌, ◌++◌, OnOk};
ghost use Rattle.std.specs.Fmt.{decimal};
ghost use Rattle.flash_device.specs.Pages.{HasReadBy, OnHonest};
ghost use Rattle.cbfs_requests.specs.Requests.{request_of};
ghost use Rattle.cbfs_mistakes.specs.Faults.{by_device};
ghost use Rattle.cbfs_mistakes.specs.Rooms.{largest_text, room_line, room_reads, room_text};

use crate::list_fault::ListFault;
use cbfs_edit::{EditFault, largest_content};
use cbfs_requests::Command;
use flash_device::{Flash, Paged};
use flash_map::{StoreFault, region};
use itoa::Buffer;
use std::alloc::AllocError;

/// Appends a number in bytes between two texts.
fn push_number(out: &mut Vec<u8>, before: &str, n: u64, after: &str) -> Result<(), AllocError>
    ensures { OnOk result
        (out.new.items ≡ out.old.items ++ (before.now ++ decimal n ++ after.now)) }
{
    let mut buffer = Buffer::new();
    out.extend_from_slice(before.as_bytes())?;
    out.extend_from_slice(buffer.format(n).as_bytes())?;
    out.extend_from_slice(after.as_bytes())
}

/// Appends the length of the largest content that fits, or a note that not even an empty content
/// fits.
fn push_largest(out: &mut Vec<u8>, largest: Option<u64>) -> Result<(), AllocError>
    ensures { OnOk result (out.new.items ≡ out.old.items ++ largest_text largest) }
{
    match largest {
        Some(n) => push_number(out, "the largest that fits is ", n, " bytes\n"),
        None => out.extend_from_slice(b"not even an empty content fits\n"),
    }
}

/// Appends the length of a content, and of the largest content with a place, in bytes.
fn push_lengths(out: &mut Vec<u8>, len: u64, largest: Option<u64>) -> Result<(), AllocError>
    ensures { OnOk result (out.new.items ≡ out.old.items ++ room_text len largest) }
{
    push_number(out, "cbfstool: the content has ", len, " bytes, and ")?;
    push_largest(out, largest)?;
    Ok(())
}

/// Appends the line on a content of `len` bytes that an addition to the image refuses, with the
/// largest content that the addition accepts. Other commands, and an addition to a region that is
/// missing or not sound, have no line. Errors: a failed read, or an allocation failure.
pub fn push_room<F: Flash>(
    out: &mut Vec<u8>,
    paged: &mut Paged<F>,
    command: &Command<'_>,
    len: u64,
) -> Result<(), ListFault>
    ensures calls { HasReadBy by_device (room_reads paged.old.device) paged.old paged.new result }
    ensures line { OnHonest paged.old.device (λ image. OnOk result
        (out.new.items ≡ out.old.items ++ room_line image (request_of command.now) len)) }
{
    let Command::Add {
        region: area,
        name,
        kind,
        hash,
        spot,
    } = command
    else {
        return Ok(());
    };
    let range = match region(paged, area) {
        Ok(range) => range,
        Err(StoreFault::Device) => return Err(ListFault::Device),
        Err(_) => return Ok(()),
    };
    match largest_content(paged, range, name, *kind, *hash, *spot) {
        Ok(largest) => Ok(push_lengths(out, len, largest)?),
        Err(EditFault::Device) => Err(ListFault::Device),
        Err(_) => Ok(()),
    }
}
