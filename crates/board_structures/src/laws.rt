//! The rules of sound structures, as contracts of functions without effect.
ghost use Rattle.std.specs.Prelude.{◌≡◌, ◌≢◌, ◌⊎◌, ◌+◌, ◌*◌, ◌≤◌, ℕ, List, length, slice_range, take, true, false, None, Some};
ghost use Rattle.std.specs.List.{find};
ghost use Rattle.flash_format.specs.Flashmap.{is_area};
ghost use Rattle.flash_format.specs.declared.flashmap.Area.{Area};
ghost use Rattle.board_structures.specs.Descriptors as descriptors;
ghost use Rattle.board_structures.specs.Descriptors.{area_name_of, base_of, descriptor_in, difference_in, limit_of};
ghost use Rattle.board_structures.specs.Filling.{each_byte_is};
ghost use Rattle.board_structures.specs.FirmwareTables.{firmware_table_in, table_place};
ghost use Rattle.board_structures.specs.GoogleBinaryBlocks as blocks;
ghost use Rattle.board_structures.specs.GoogleBinaryBlocks.{gbb_in, header_of, text_fault};
ghost use Rattle.board_structures.specs.Laws.{HasDigest, IsCoveredSlot, IsHeaderOfArea, IsUsableBlock, IsUsableKey, IsUsableTable};
ghost use Rattle.board_structures.specs.MasterHeaders.{fields_of, master_header_in};
ghost use Rattle.board_structures.specs.PackedKeys.{key_fault};
ghost use Rattle.board_structures.specs.PartitionTables as tables;
ghost use Rattle.board_structures.specs.PartitionTables.{partition_table_in};
ghost use Rattle.board_structures.specs.ResetVectors as vectors;
ghost use Rattle.board_structures.specs.ResetVectors.{code_in, reset_vector_in};
ghost use Rattle.board_structures.specs.SignedSlots as slots;
ghost use Rattle.board_structures.specs.SignedSlots.{keyblock_of, signed_slot_in};
ghost use Rattle.board_structures.specs.declared.descriptor.DescriptorRegion.{DescriptorRegion};
ghost use Rattle.board_structures.specs.declared.descriptor.RegionTable.{RegionTable};
ghost use Rattle.board_structures.specs.declared.firmware_table.FirmwareTable.TheVariants as firmware_tables;
ghost use Rattle.board_structures.specs.declared.gbb.GbbHeader.{GbbHeader};
ghost use Rattle.board_structures.specs.declared.master_header.MasterHeader.TheVariants as headers;
ghost use Rattle.board_structures.specs.declared.packed_key.PackedKey.{PackedKey};
ghost use Rattle.board_structures.specs.declared.signed_slot.SlotBody.{SlotBody};

/// A descriptor that isn't bad is blank, or has its signature at 16 or at 0 and at least 4096
/// bytes.
pub fn sound_descriptors_have_a_signature()
    ensures { (x : List ℕ) → descriptors.is_bad (descriptor_in x) ≡ false
        → (each_byte_is 0xff x ≡ true) ⊎ ((4096 ≤ length x)
        × ((slice_range x 16 20 ≡ descriptors.signature)
        ⊎ (slice_range x 0 4 ≡ descriptors.signature))) }
{}

/// A used region without a difference begins and ends where its area does.
pub fn areas_without_difference_are_their_regions()
    ensures { (region : DescriptorRegion) (table : RegionTable) (areas : List Area) (a : Area)
        → difference_in region table areas ≡ None → base_of region table ≤ limit_of region table
        → find (is_area (area_name_of region)) areas ≡ Some a
        → (a.offset ≡ 4096 * base_of region table)
        × (a.offset + a.size ≡ 4096 * (limit_of region table + 1)) }
{}

/// An area of the Management Engine that isn't bad is blank, or has the marker at 16 or at 0.
pub fn sound_partition_tables_have_a_marker()
    ensures { (x : List ℕ) → tables.is_bad (partition_table_in x) ≡ false
        → (each_byte_is 0xff x ≡ true) ⊎ (slice_range x 16 20 ≡ tables.marker)
        ⊎ (slice_range x 0 4 ≡ tables.marker) }
{}

/// A reset vector that isn't bad has a byte that isn't 0xff, and one that isn't 0x00.
pub fn sound_reset_vectors_have_code()
    ensures { (image : List ℕ) → vectors.is_bad (reset_vector_in image) ≡ false
        → (16 ≤ length image) × (each_byte_is 0xff (code_in image) ≡ false)
        × (each_byte_is 0x00 (code_in image) ≡ false) }
{}

/// vboot accepts a key without a fault.
pub fn keys_without_fault_are_usable()
    ensures { (room : ℕ) (key : PackedKey) → key_fault room key ≡ None → IsUsableKey room key }
{}

/// A hardware id without a fault has its digest.
pub fn hardware_ids_without_fault_have_their_digest()
    ensures { (h : GbbHeader) (field : List ℕ) → text_fault h field ≡ None → HasDigest h field }
{}

/// A Google Binary Block that isn't bad is blank, or vboot can use it.
pub fn sound_blocks_are_usable()
    ensures { (x : List ℕ) → blocks.is_bad (gbb_in x) ≡ false
        → (each_byte_is 0xff x ≡ true) ⊎ IsUsableBlock (header_of (take 128 x)) x }
{}

/// A slot that isn't bad is erased or cleared, or its keyblock has its checksum and its signed
/// bytes cover the body.
pub fn signed_slots_are_covered()
    ensures { (body : SlotBody) (x : List ℕ) → slots.is_bad (signed_slot_in body x) ≡ false
        → (each_byte_is 0xff x ≡ true) ⊎ (each_byte_is 0x00 x ≡ true)
        ⊎ IsCoveredSlot body (keyblock_of (take 112 x)) x }
{}

/// A sound master header has the start and the end of its area, and the pointer leads to it.
pub fn sound_headers_are_of_their_area()
    ensures { (start at : ℕ) (x : List ℕ) → master_header_in start at x ≡ headers.Sound
        → IsHeaderOfArea start at (fields_of (slice_range x at (at + 32))) x }
{}

/// A sound Firmware Interface Table is where the image points to, and each update of its entries is
/// whole: it has the version 1, and the sum of its words is a multiple of 2^32.
pub fn sound_tables_are_usable()
    ensures { (image : List ℕ) (count : ℕ)
        → firmware_table_in image ≡ firmware_tables.Sound count
        → (place : ℕ) × (table_place image ≡ Some place) × IsUsableTable place count image }
{}
