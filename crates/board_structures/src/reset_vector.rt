//! The reset vector of x86.
ghost use Rattle.std.specs.Prelude.{◌≡◌};
ghost use Rattle.flash_device.specs.Pages.{HasAnswered, OnHonest, Returns};
ghost use Rattle.board_structures.specs.ResetVectors.{is_bad, reset_vector_in, state_of_code};

use crate::filling::are_all;
use flash_device::{Flash, FlashFault, Paged};

/// The bytes from the reset vector to the image's end.
const DISTANCE: u64 = 16;

/// The bytes of code before the last four bytes of the image.
const CODE_LENGTH: usize = 12;

/// The state of the reset vector.
#[derive(Clone, Copy, Debug, PartialEq, Eq)]
pub enum ResetVector {
    /// The image has fewer than 16 bytes.
    CutOff,
    /// Each byte of the code is 0xff.
    Erased,
    /// Each byte of the code is 0x00.
    Cleared,
    /// The code has other bytes.
    Code,
}

impl ResetVector {
    /// Returns whether an x86 board can't boot with this reset vector.
    pub fn is_bad(self) -> bool
        ensures { result ≡ is_bad self }
    {
        self != ResetVector::Code
    }
}

fn state_of_code(code: &[u8]) -> ResetVector
    ensures { result ≡ state_of_code code.now }
{
    if are_all(code, 0xff) {
        ResetVector::Erased
    } else if are_all(code, 0x00) {
        ResetVector::Cleared
    } else {
        ResetVector::Code
    }
}

/// Returns the state of the reset vector of an image that ends with an x86 bootblock.
pub fn read_reset_vector<F: Flash>(paged: &mut Paged<F>) -> Result<ResetVector, FlashFault>
    ensures after { HasAnswered 1 paged.old paged.new result }
    ensures state { OnHonest paged.old.device (λ image. Returns result (reset_vector_in image)) }
{
    let len = paged.len();
    if len < DISTANCE {
        return Ok(ResetVector::CutOff);
    }
    let mut code = [0; CODE_LENGTH];
    paged.read_small(len - DISTANCE, &mut code)?;
    Ok(state_of_code(&code))
}
