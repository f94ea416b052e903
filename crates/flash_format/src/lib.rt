//! Encoders and decoders of CBFS entries, flash maps, types, names and numbers, without allocation.
//!
//! docs/FORMAT.md describes the formats.
#![tactic(auto)]

mod attribute;
mod buffer;
mod damage_name;
mod digest;
mod empty_entry;
mod flashmap;
mod head;
mod laws;
mod meta;
mod number;
mod printed_name;
mod printed_number;
mod type_names;

pub use attribute::AttrHead;
pub use buffer::push_text;
pub use digest::{Algorithm, Digest, digest_text};
pub use empty_entry::empty_header;
pub use flashmap::{Area, FmapHead, has_nul};
pub use head::{DamageKind, Extent, HEADER_LENGTH, Head, round64};
pub use laws::{
    components_are_placed, cuts_are_made_of_cells, cuts_go_on, empty_headers_are_free_cells,
    entries_are_read_alike, groups_are_replaced, lengths_are_defined, made_cells_are_read_as_made,
    maps_are_read_back, maps_are_the_lowest, printed_texts_are_read_back, type_names_are_read_back,
};
pub use meta::{LONGEST_METADATA, Meta, attr_len, meta_len, write_meta};
pub use number::{digits_value, read_number};
pub use printed_name::{printed_byte, push_name};
pub use printed_number::{hexadecimal, push_hexadecimal};
pub use type_names::{compression_name, type_name, type_number};
