//! Areas without content, and the first bytes of an area.
ghost use Rattle.std.specs.Prelude.{◌≡◌};
ghost use Rattle.flash_device.specs.Pages.{HasAnswered, ReadsAs};
ghost use Rattle.flash_device.specs.Regions.{LiesOn};
ghost use Rattle.board_structures.specs.Filling.{each_byte_is, page_reads};

use flash_device::{Flash, FlashFault, PIECE, Paged, Region};

/// Returns whether each byte has this value.
pub fn are_all(bytes: &[u8], byte: u8) -> bool
    ensures { result ≡ each_byte_is byte bytes.now }
{
    bytes.iter().all(|b| *b == byte)
}

/// Returns whether each byte of an area has this value, for example 0xff in an erased area.
pub fn each_byte_is<F: Flash>(
    paged: &mut Paged<F>,
    area: Region,
    byte: u8,
) -> Result<bool, FlashFault>
    requires { LiesOn area paged.old.device }

    ensures after { HasAnswered (page_reads area.size) paged.old paged.new result }
    ensures value { ReadsAs paged.old area result (each_byte_is byte) }
{
    let len = area.size();
    for i in 0..(len + 4095) / 4096 {
        let at = 4096 * i;
        let n = (len - at).min(PIECE as u64);
        let bytes = paged.piece(area.start() + at, n as usize)?;
        if !are_all(bytes, byte) {
            return Ok(false);
        }
    }
    Ok(true)
}
