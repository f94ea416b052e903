//! The formatting of a region.
ghost use Rattle.std.specs.Prelude.{◌≡◌, ◌≢◌, ◌⊎◌, ◌+◌, ◌/◌, ◌<◌, Ok, Err, if◌then◌else◌, IsTrue};
ghost use Rattle.std.specs.Prelude.{IsErrOf, IfErr, OnOk};
ghost use Rattle.flash_device.specs.Device.{fault_count};
ghost use Rattle.flash_device.specs.Pages.{HasChanged, OnHonestIn};
ghost use Rattle.flash_device.specs.Regions.{LiesOn, bytes_in};
ghost use Rattle.cbfs_walk.specs.Shapes.{has_bad_size};
ghost use Rattle.cbfs_edit.specs.Changes.{by_device};
ghost use Rattle.cbfs_edit.specs.Changes.{formatted, IsOneFreeCell};
ghost use Rattle.cbfs_edit.specs.Removals.{last_four};

use crate::fault::EditFault;
use crate::group::CellRange;
use crate::region_writes::write_empty_entry;
use cbfs_walk::has_bad_size;
use flash_device::{Flash, Paged, Region};

/// Formats the region as a single empty entry, without reading, and keeps its last four bytes. A
/// device fault leaves the region unchanged, or a single free cell.
#[tactic(auto, using(crate::proofs::FormatLemmas::good_size))]
pub fn format<F: Flash>(paged: &mut Paged<F>, region: Region) -> Result<(), EditFault>
    requires { LiesOn region paged.old.device }

    ensures after { HasChanged region (region.size / 4096 + 2)
        (fault_count by_device result) paged.old paged.new }
    ensures answer { IsErrOf result EditFault.Device
        ⊎ (result ≡ (if has_bad_size region.size then Err EditFault.RegionShape else Ok tt)) }

    ensures formatted { OnHonestIn paged.old.device region (λ x.
        OnOk result (bytes_in region paged.new.device.content ≡ formatted x)) }
    ensures refused { IsTrue paged.old.device.honest → IfErr result
        (λ fault. fault ≢ EditFault.Device → paged.new.device.content ≡ paged.old.device.content) }
    ensures stopped { OnHonestIn paged.old.device region (λ x. IsErrOf result EditFault.Device
        → let y = bytes_in region paged.new.device.content in
        ((y ≡ x) ⊎ IsOneFreeCell y) × (last_four y ≡ last_four x)) }
{
    let end = region.size();
    if has_bad_size(end) {
        return Err(EditFault::RegionShape);
    }
    write_empty_entry(paged, region, CellRange { start: 0, end })?;
    Ok(())
}
