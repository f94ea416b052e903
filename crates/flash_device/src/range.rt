//! A range of an image.
ghost use Rattle.std.specs.Prelude.{◌≡◌, ◌+◌, ◌<◌, ◌≤◌, Some, None, MatchOption};

use std::marker::Model;

/// A range in bytes.
#[derive(Clone, Copy, Debug, Default, PartialEq, Eq, Drop)]
pub struct Region {
    start: u64,
    size: u64,
}

impl Model for Region {
    ghost use Rattle.flash_device.specs.Regions.{Range};

    ghost Value = { Range };

    ghost view = { λ r. record { start = r.start; size = r.size } };

    ghost inverse = { λ r. record { start = r.start; size = r.size } };
}

impl Region {
    /// Returns a range, or `None` past `image_len`.
    pub fn within(start: u64, size: u64, image_len: u64) -> Option<Region>
        ensures { MatchOption result (image_len < start + size) (λ region.
            (region ≡ record { start = start; size = size }) × (start + size ≤ image_len)) }
    {
        if start > image_len || size > image_len - start {
            return None;
        }
        Some(Region { start, size })
    }

    /// Returns the offset in the image.
    pub fn start(&self) -> u64
        ensures { result ≡ self.now.start }
    {
        self.start
    }

    /// Returns the size in bytes.
    pub fn size(&self) -> u64
        ensures { result ≡ self.now.size }
    {
        self.size
    }
}
