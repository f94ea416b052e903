//! Devices, sources, sinks, and a buffered device.
#![tactic(auto)]

mod counter;
mod fail_at;
mod fail_source;
mod flash;
mod laws;
mod mem_flash;
mod mem_source;
mod paged;
mod range;
mod sink;
mod source;
mod watch;

pub use counter::Counter;
pub use fail_at::FailAt;
pub use fail_source::FailSource;
pub use flash::{Flash, FlashFault, PIECE};
pub use laws::{separate_edits_swap, separate_writes_swap, writes_are_seen_by_regions};
pub use mem_flash::MemFlash;
pub use mem_source::MemSource;
pub use paged::{CopyFault, CopyInFault, Paged};
pub use range::Region;
pub use sink::{Sink, SinkFault, WriteSink, put_all};
pub use source::{Source, SourceFault};
pub use watch::{Unwatched, Watch};
