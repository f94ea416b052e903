//! The structures that a board boots from beside CBFS.
#![tactic(auto)]

mod descriptor;
mod filling;
mod firmware_table;
mod gbb;
mod laws;
mod magic;
mod master_header;
mod numbers;
mod packed_key;
mod partition_table;
mod reset_vector;
mod signed_slot;

pub use descriptor::{
    AreaDifference, Descriptor, DescriptorRegion, FlashRange, RegionTable, area_difference,
    read_descriptor,
};
pub use filling::each_byte_is;
pub use firmware_table::{
    EntryFault, FirmwareTable, TableFault, UpdateFault, read_firmware_table, read_table_place,
};
pub use gbb::{Gbb, GbbFault, GbbField, GbbKeyFault, read_gbb};
pub use laws::{
    areas_without_difference_are_their_regions, hardware_ids_without_fault_have_their_digest,
    keys_without_fault_are_usable, signed_slots_are_covered, sound_blocks_are_usable,
    sound_descriptors_have_a_signature, sound_headers_are_of_their_area,
    sound_partition_tables_have_a_marker, sound_reset_vectors_have_code, sound_tables_are_usable,
};
pub use master_header::{HeaderFault, MasterHeader, read_master_header};
pub use numbers::{
    blocks_have_their_states, bodies_have_their_states, descriptors_have_their_states,
    firmware_tables_have_their_states, master_headers_have_their_states,
    moved_areas_are_differences, partition_tables_have_their_states, regions_have_their_ranges,
    reset_vectors_have_their_states, slots_have_their_states,
};
pub use packed_key::{KeyFault, KeyLength, PackedKey};
pub use partition_table::{PartitionTable, read_partition_table};
pub use reset_vector::{ResetVector, read_reset_vector};
pub use signed_slot::{SignedSlot, SlotBody, SlotFault, SlotSignature, read_signed_slot};
