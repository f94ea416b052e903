//! The removal of a component.
ghost use Rattle.std.specs.Prelude.{◌+◌, ◌/◌, IsErrOf};
ghost use Rattle.flash_device.specs.Device.{fault_count};
ghost use Rattle.flash_device.specs.Pages.{HasChanged, OnHonest};
ghost use Rattle.flash_device.specs.Regions.{LiesOn};
ghost use Rattle.cbfs_edit.specs.Changes.{IsRemoval, by_device};

use crate::fault::EditFault;
use crate::group::{Freed, find_group};
use crate::region_writes::write_empty_entry;
use flash_device::{Flash, Paged, Region};

/// Replaces the first component with the name, and all adjacent free space, with a single empty
/// entry, and returns its range. The region's last four bytes and all bytes after the last entry
/// remain.
///
/// The errors, in this order, are: invalid region size, no entry at the region's start, damaged
/// entry, no component with the name. A device fault leaves the components of before or after the
/// removal, and keeps all bytes outside the group.
pub fn remove<F: Flash>(
    paged: &mut Paged<F>,
    region: Region,
    name: &[u8],
) -> Result<Freed, EditFault>
    requires { LiesOn region paged.old.device }

    ensures after { HasChanged region (region.size / 16 + region.size / 4096 + 3)
        (fault_count by_device result) paged.old paged.new }
    ensures no_source { IsErrOf result EditFault.Source → ⊥ }
    ensures effect { OnHonest paged.old.device (λ image.
        IsRemoval region name.now result image paged.new.device.content) }
{
    let group = find_group(paged, region, name)?;
    write_empty_entry(paged, region, group)?;
    Ok(group)
}
