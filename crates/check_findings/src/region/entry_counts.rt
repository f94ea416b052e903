//! Sums over entries.
ghost use Rattle.std.specs.Prelude.{◌≡◌, ◌+◌, ◌^◌, ◌<◌, ◌≤◌, [], ◌++◌};
ghost use Rattle.flash_format.specs.Head.{is_free};
ghost use Rattle.flash_device.specs.Pages.{Lists};

use crate::region::finding::RegionFinding;
use cbfs_walk::Cell;
use std::alloc::AllocError;

/// The bytes of a header and a name of at most 3 bytes with its NUL.
const METADATA: u64 = 28;

/// The sums over the entries before an offset.
#[derive(Clone, Copy, Default)]
pub struct EntryCounts {
    /// The region's size in bytes.
    pub size: u64,
    /// The offset after the last entry.
    pub at: u64,
    pub components: u64,
    /// The bytes of all empty entries.
    pub free: u64,
    /// The offset after the last component.
    pub start: u64,
    /// The most usable bytes of an empty run before `start`.
    pub room: u64,
}

impl EntryCounts {
    ghost use Rattle.check_findings.specs.RegionFindings.{counts_after, count_findings};
    ghost use Rattle.check_findings.specs.RegionFindings.{entry_counts, usable_room};

    /// Returns the counts before the first entry of a region of `size` bytes.
    pub fn new(size: u64) -> EntryCounts
        ensures { result ≡ entry_counts size [] }
    {
        EntryCounts {
            size,
            ..EntryCounts::default()
        }
    }

    /// Returns the most usable bytes of an empty run, if the entries end here: all but the region's
    /// last four.
    fn usable_room(self) -> u64
        ensures { result ≡ usable_room self }
    {
        let kept = if self.at == self.size { 4 } else { 0 };
        let usable = self.at.saturating_sub(self.start).saturating_sub(kept);
        self.room.max(usable)
    }

    /// Returns the counts after another entry.
    pub fn with(self, cell: &Cell) -> EntryCounts
        requires before { (self.components ≤ self.at) × (self.free ≤ self.at) }
        requires small { self.at + cell.now.span < 2 ^ 32 }

        ensures { result ≡ counts_after self (is_free cell.now.head) cell.now.span }
    {
        let mut next = self;
        next.at += cell.span;
        if cell.head.is_free() {
            next.free += cell.span;
        } else {
            next.components += 1;
            next.room = self.usable_room();
            next.start = next.at;
        }
        next
    }

    /// Returns all findings, if the entries with these findings end here.
    pub fn counts_at_end(
        self,
        mut findings: Vec<RegionFinding>,
    ) -> Result<Vec<RegionFinding>, AllocError>
        ensures { Lists result (findings.items ++ count_findings self) }
    {
        findings.push(RegionFinding::Components(self.components))?;
        findings.push(RegionFinding::FreeBytes(self.free))?;
        let largest = self.usable_room().checked_sub(METADATA);
        findings.push(RegionFinding::LargestContent(largest))?;
        Ok(findings)
    }
}
