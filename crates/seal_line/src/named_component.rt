//! The name of the component that a fault concerns.
ghost use Rattle.std.specs.Prelude.{◌≡◌, ◌⊎◌, ◌<◌, ℕ, List, [], None};
ghost use Rattle.flash_device.specs.Pages.{OnHonest};
ghost use Rattle.flash_format.specs.Texts.{printed_name};
ghost use Rattle.seal_line.specs.Refusals.{component_of, name_of_component};

use arrayvec::ArrayVec;
use cbfs_anchor::{SealFault, name_at};
use flash_device::{Flash, Paged};
use flash_format::push_name;

/// The maximum length of a printed name: 256 escaped bytes.
pub const NAME_LEN: usize = 1024;

/// Returns the position of the component that a fault concerns, relative to the start of COREBOOT.
pub fn component_of(fault: SealFault) -> Option<u64>
    ensures { result ≡ component_of fault }
{
    match fault {
        SealFault::TooLong { at } => Some(at),
        SealFault::HashedBootblock { at } => Some(at),
        SealFault::Unhashed { at } => Some(at),
        _ => None,
    }
}

/// Returns the printed name of the component that a fault concerns: no bytes if it concerns none,
/// if the image has no COREBOOT, or after a device fault.
pub fn component_name<F: Flash>(paged: &mut Paged<F>, fault: SealFault) -> ArrayVec<u8, NAME_LEN>
    // On any device.
    ensures unnamed { component_of fault ≡ None → (result.items ≡ []) × (paged.new ≡ paged.old) }
    ensures printed { (name : List ℕ) × (result.items ≡ printed_name name) }

    // On an honest device. No bytes, if a read has failed.
    ensures named { OnHonest paged.old.device (λ image.
        (result.items ≡ printed_name (name_of_component fault image))
        ⊎ (result.items ≡ []) × (paged.old.device.faults < paged.new.device.faults)) }
    ensures unchanged { OnHonest paged.old.device (λ image. paged.new.device.content ≡ image) }
{
    let mut text = ArrayVec::new();
    let Some(at) = component_of(fault) else {
        return text;
    };
    let mut name = [0; 256];
    if let Ok(n) = name_at(paged, at, &mut name) {
        push_name(&mut text, &name[..n]);
    }
    text
}
