//! The states of literal structures, in numbers. Definitions without content would prove none of
//! these.
ghost use Rattle.std.specs.Prelude.{◌≡◌, [], ◌∷◌, ◌++◌, drop, replicate, take, Some, None};
ghost use lib.Chars.{codes};
ghost use Rattle.board_structures.specs.Descriptors.{descriptor_in, difference_in, range_of};
ghost use Rattle.board_structures.specs.FirmwareTables.{firmware_table_in};
ghost use Rattle.board_structures.specs.GoogleBinaryBlocks.{gbb_in};
ghost use Rattle.board_structures.specs.MasterHeaders.{master_header_in};
ghost use Rattle.board_structures.specs.PartitionTables.{partition_table_in};
ghost use Rattle.board_structures.specs.ResetVectors.{reset_vector_in};
ghost use Rattle.board_structures.specs.Samples.{area_with, image_with_table, old_me, small_block, small_body, small_descriptor, small_end, small_header_area, small_me, small_preamble, small_table, small_update};
ghost use Rattle.board_structures.specs.SignedSlots.{preamble_state, signed_slot_in};
ghost use Rattle.board_structures.specs.declared.descriptor.Descriptor.TheVariants as descriptors;
ghost use Rattle.board_structures.specs.declared.descriptor.DescriptorRegion.TheVariants.{Bios, Gbe, Me};
ghost use Rattle.board_structures.specs.declared.firmware_table.FirmwareTable.TheVariants as firmware_tables;
ghost use Rattle.board_structures.specs.declared.firmware_table.TableFault.TheVariants as table_faults;
ghost use Rattle.board_structures.specs.declared.firmware_table.UpdateFault.TheVariants as update_faults;
ghost use Rattle.board_structures.specs.declared.gbb.Gbb.TheVariants as blocks;
ghost use Rattle.board_structures.specs.declared.gbb.GbbFault.TheVariants as block_faults;
ghost use Rattle.board_structures.specs.declared.gbb.GbbField.TheVariants.{RecoveryKey};
ghost use Rattle.board_structures.specs.declared.master_header.HeaderFault.TheVariants as header_faults;
ghost use Rattle.board_structures.specs.declared.master_header.MasterHeader.TheVariants as headers;
ghost use Rattle.board_structures.specs.declared.partition_table.PartitionTable.TheVariants as tables;
ghost use Rattle.board_structures.specs.declared.reset_vector.ResetVector.TheVariants as vectors;
ghost use Rattle.board_structures.specs.declared.signed_slot.SignedSlot.TheVariants as slots;
ghost use Rattle.board_structures.specs.declared.signed_slot.SlotFault.TheVariants as slot_faults;

/// A literal descriptor, a blank one, one without a signature and one that is too short.
pub fn descriptors_have_their_states()
    ensures described { descriptor_in small_descriptor ≡ descriptors.Described small_table }
    ensures blank { descriptor_in (replicate 4096 0xff) ≡ descriptors.Blank }
    ensures no_signature { descriptor_in (replicate 4096 0x00) ≡ descriptors.NoSignature }
    ensures cut_off { descriptor_in (replicate 16 0xff ++ 0x5a ∷ 0xa5 ∷ 0xf0 ∷ 0x0f ∷ [])
        ≡ descriptors.CutOff }
{}

/// The regions of the literal descriptor in bytes.
pub fn regions_have_their_ranges()
    ensures bios { range_of Bios small_table
        ≡ Some (record { offset = 0x200000; size = 0xe00000 }) }
    ensures me { range_of Me small_table ≡ Some (record { offset = 0x1000; size = 0x1ff000 }) }
    ensures gbe { range_of Gbe small_table ≡ None }
{}

/// The area of the Management Engine in its place, too short, and without an area.
pub fn moved_areas_are_differences()
    ensures same { difference_in Me small_table (area_with (codes "SI_ME") 27 0x1000 0x1ff000 ∷ [])
        ≡ None }
    ensures short { difference_in Me small_table (area_with (codes "SI_ME") 27 0x1000 0x1fe000 ∷ [])
        ≡ Some (record {
          region = Me;
          described = record { offset = 0x1000; size = 0x1ff000 };
          area = record { offset = 0x1000; size = 0x1fe000 };
        }) }
    ensures none { difference_in Me small_table [] ≡ None }
{}

/// Literal areas of the Management Engine.
pub fn partition_tables_have_their_states()
    ensures newer { partition_table_in small_me ≡ tables.Present 16 }
    ensures older { partition_table_in old_me ≡ tables.Present 0 }
    ensures blank { partition_table_in (replicate 32 0xff) ≡ tables.Blank }
    ensures missing { partition_table_in (0x00 ∷ replicate 31 0xff) ≡ tables.Missing }
{}

/// Literal ends of images.
pub fn reset_vectors_have_their_states()
    ensures code { reset_vector_in small_end ≡ vectors.Code }
    ensures erased { reset_vector_in (replicate 12 0xff ++ replicate 4 0x00) ≡ vectors.Erased }
    ensures cleared { reset_vector_in (replicate 12 0x00 ++ replicate 4 0xff) ≡ vectors.Cleared }
    ensures cut_off { reset_vector_in (replicate 15 0x90) ≡ vectors.CutOff }
{}

/// A literal block, a blank one, one that is too short, and one with another first byte.
pub fn blocks_have_their_states()
    ensures sound { gbb_in small_block ≡ blocks.Sound 0x39 }
    ensures blank { gbb_in (replicate 128 0xff) ≡ blocks.Blank }
    ensures cut_off { gbb_in (take 127 small_block) ≡ blocks.Broken block_faults.CutOff }
    ensures no_signature { gbb_in (0x00 ∷ drop 1 small_block)
        ≡ blocks.Broken block_faults.NoSignature }
    ensures recovery_key { gbb_in (take 735 small_block)
        ≡ blocks.Broken (block_faults.FieldOutside RecoveryKey) }
    ensures no_terminator { gbb_in (take 128 small_block ++ replicate 16 0x55
        ++ drop 144 small_block) ≡ blocks.Broken block_faults.NoTerminator }
{}

/// A literal master header, in its place and in an area with another start.
pub fn master_headers_have_their_states()
    ensures sound { master_header_in 0x100 0 small_header_area ≡ headers.Sound }
    ensures moved { master_header_in 0x200 0 small_header_area
        ≡ headers.Broken (header_faults.Start 0x100) }
    ensures pointer { master_header_in 0x100 0 (take 60 small_header_area ++ replicate 4 0xff)
        ≡ headers.Broken (header_faults.Pointer 0xffffffff) }
{}

/// A literal image with a firmware interface table and an update, one without a table, with tables
/// that count no entry and too many, and with an empty slot and two broken updates.
pub fn firmware_tables_have_their_states()
    ensures sound { firmware_table_in (image_with_table small_update 2)
        ≡ firmware_tables.Sound 2 }
    ensures absent { firmware_table_in (replicate 144 0x00) ≡ firmware_tables.Absent }
    ensures empty { firmware_table_in (image_with_table small_update 0)
        ≡ firmware_tables.Broken table_faults.Empty }
    ensures cut_off { firmware_table_in (image_with_table small_update 7)
        ≡ firmware_tables.Broken table_faults.CutOff }
    ensures slot { firmware_table_in (image_with_table (replicate 48 0xff) 2)
        ≡ firmware_tables.Sound 2 }
    ensures version { firmware_table_in (image_with_table (0x02 ∷ drop 1 small_update) 2)
        ≡ firmware_tables.Broken (table_faults.Entry (record {
          number = 1;
          fault = update_faults.Version 2;
        })) }
    ensures sum { firmware_table_in (image_with_table (take 47 small_update ++ 0x01 ∷ []) 2)
        ≡ firmware_tables.Broken (table_faults.Entry (record {
          number = 1;
          fault = update_faults.Sum;
        })) }
{}

/// Areas without a keyblock.
pub fn slots_have_their_states()
    ensures erased { signed_slot_in small_body (replicate 120 0xff) ≡ slots.Blank }
    ensures cleared { signed_slot_in small_body (replicate 120 0x00) ≡ slots.Blank }
    ensures cut_off { signed_slot_in small_body (codes "CHROMEOS" ++ replicate 103 0x00)
        ≡ slots.Broken slot_faults.CutOff }
    ensures no_magic { signed_slot_in small_body (codes "CHROME00" ++ replicate 104 0x00)
        ≡ slots.Broken slot_faults.NoMagic }
    ensures version { signed_slot_in small_body (codes "CHROMEOS" ++ replicate 104 0x00)
        ≡ slots.Broken (slot_faults.KeyblockVersion 0) }
{}

/// A preamble that signs 64 bytes, on both sides of its limits: the last component ends at 64, and
/// the area of the body has 96 bytes.
pub fn bodies_have_their_states()
    ensures sound { preamble_state small_body 176 (small_preamble 64) ≡ slots.Sound 64 }
    ensures longest { preamble_state small_body 176 (small_preamble 96) ≡ slots.Sound 96 }
    ensures short { preamble_state small_body 176 (small_preamble 63)
        ≡ slots.Broken (slot_faults.BodyShort 63) }
    ensures long { preamble_state small_body 176 (small_preamble 97)
        ≡ slots.Broken (slot_faults.BodyLong 97) }
    ensures not_checked { preamble_state small_body 176 (small_preamble 0)
        ≡ slots.BodyNotChecked }
    ensures outside { preamble_state small_body 175 (small_preamble 64)
        ≡ slots.Broken (slot_faults.PreambleLength 176) }
{}
