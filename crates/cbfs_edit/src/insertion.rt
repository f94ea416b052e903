//! Writes a component into a run of free cells.
//!
//! The first commit covers the run with the header of an empty entry, and the last commit shows the
//! component. Bytes written between the commits are free space.
ghost use Rattle.std.specs.Prelude.{◌≡◌, ◌⊎◌, ◌+◌, ◌-◌, ◌<◌, ◌≤◌, ◌==◌, if◌then◌else◌, List, ℕ};
ghost use Rattle.std.specs.Prelude.{length};
ghost use Rattle.flash_device.specs.Device.{SameOutside, overwritten, refusals};
ghost use Rattle.flash_device.specs.Pages.{HasChanged, OnHonestIn};
ghost use Rattle.flash_device.specs.Regions.{LiesOn, Reaches, bytes_in};
ghost use Rattle.flash_format.specs.Made.{empty_header, hash_len, header_length, meta_length};
ghost use Rattle.cbfs_edit.specs.Additions.{described};
ghost use Rattle.cbfs_edit.specs.Changes.{HasWrittenIn, Shows, before_last_commit, written_to};
ghost use Rattle.cbfs_edit.specs.Places.{LiesInItsRun};

use crate::place::{Place, Wanted};
use crate::region_writes::{commit_in, write_in};
use flash_device::{Flash, FlashFault, Paged, Region};
use flash_format::{
    Digest, HEADER_LENGTH, LONGEST_METADATA, Meta, empty_header, round64, write_meta,
};

/// Returns the number of metadata bytes in the last commit.
fn held_back(place: Place) -> usize
    ensures { result ≡ (if place.header == place.run.start then header_length else 0) }
{
    if place.header == place.run.start {
        HEADER_LENGTH
    } else {
        0
    }
}

/// Writes the header of the empty entry between two offsets, if different.
fn write_bound<F: Flash>(
    paged: &mut Paged<F>,
    region: Region,
    start: u64,
    end: u64,
) -> Result<(), FlashFault>
    requires reach { Reaches region end paged.old.device }
    requires room { (start ≡ end) ⊎ (start + 64 ≤ end) }

    ensures { HasWrittenIn region 1 (λ x. if start == end then x else overwritten x start
        (empty_header (end - start) (end == length x))) (λ x y. (y ≡ x) ⊎ ((start < end)
        × SameOutside start header_length x y)) paged.old paged.new result }
{
    if start == end {
        return Ok(());
    }
    let header = empty_header((end - start) as u32, end == region.size());
    write_in(paged, region, start, &header)
}

/// Writes the metadata of a component whose content is written, and the header of the following
/// empty entry. The last commit shows the component.
pub fn describe<F: Flash>(
    paged: &mut Paged<F>,
    region: Region,
    name: &[u8],
    kind: u32,
    digest: &Option<Digest>,
    wanted: Wanted,
    place: Place,
) -> Result<(), FlashFault>
    requires region { LiesOn region paged.old.device }
    requires fits { LiesInItsRun wanted region.size place }
    requires name { length name.now ≤ 127 }
    requires metadata { wanted.metadata_len ≡ meta_length (length name.now) (hash_len digest.now) }

    ensures after { HasChanged region 3 (refusals result) paged.old paged.new }
    ensures shown { OnHonestIn paged.old.device region (λ y. (x content : List ℕ)
        → length x ≡ region.size → length content ≡ wanted.len
        → y ≡ before_last_commit x place content
        → Shows (described name.now kind digest.now content) place
        (written_to wanted region.size place) result x
        (bytes_in region paged.new.device.content)) }
{
    let end = round64(place.content + u64::from(wanted.len));
    let meta = Meta {
        name,
        kind,
        len: wanted.len,
        gap: (place.content - place.header - u64::from(wanted.metadata_len)) as u32,
        digest: digest.as_ref(),
    };
    let mut metadata = [0; LONGEST_METADATA];
    let n = write_meta(&meta, &mut metadata);
    let metadata = &metadata[..n];
    let skip = held_back(place);
    write_in(paged, region, place.header + skip as u64, &metadata[skip..])?;
    write_bound(paged, region, end, place.run.end)?;
    if place.header == place.run.start {
        let mut begin = [0; HEADER_LENGTH];
        begin.copy_from_slice(&metadata[..HEADER_LENGTH]);
        return commit_in(paged, region, place.run.start, &begin);
    }
    let begin = empty_header((place.header - place.run.start) as u32, false);
    commit_in(paged, region, place.run.start, &begin)
}
