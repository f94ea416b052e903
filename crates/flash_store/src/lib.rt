//! Devices and sources in files, and all names of flash_device and flash_map.
#![tactic(auto)]

mod arguments;
mod erase_filter;
mod file_identity;
mod file_source;
mod flaky_file;
mod open_fault;
mod os_file;
mod output;
mod output_file;
mod read_ahead;
mod repeating_sink;
mod standard_descriptors;
mod storage;
mod stored_flash;
mod stored_source;
mod transfer;

pub use arguments::program_words;
pub use erase_filter::EraseFilter;
pub use file_identity::{FileIdentity, FileKind};
pub use file_source::FileSource;
pub use flaky_file::FlakyFile;
pub use flash_device::{
    CopyFault, CopyInFault, Counter, FailAt, FailSource, Flash, FlashFault, MemFlash, MemSource,
    PIECE, Paged, Sink, SinkFault, Source, SourceFault, Unwatched, Watch, WriteSink, put_all,
    separate_edits_swap, separate_writes_swap, writes_are_seen_by_regions,
};
pub use flash_map::{
    FoundMap, Region, StoreFault, area, area_in_source, find_fmap, find_fmap_from, map_in_source,
    region, region_of_area, written_maps_are_found,
};
pub use open_fault::OpenFault;
pub use os_file::{Lock, OsFile};
pub use output::Output;
pub use output_file::create_output;
pub use read_ahead::ReadAhead;
pub use repeating_sink::RepeatingSink;
pub use standard_descriptors::open_beside_standard;
pub use storage::{Storage, StorageFault};
pub use stored_flash::{FileFlash, StoredFlash};
pub use stored_source::StoredSource;
