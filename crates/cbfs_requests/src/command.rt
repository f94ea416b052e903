//! The commands of the command line.

use arrayvec::ArrayVec;
use cbfs_edit::{HashChoice, Spot};

/// The maximum number of regions of a new image.
pub const MOST_REGIONS: usize = 16;

/// A command and its arguments. Names are bytes.
#[derive(Drop)]
pub enum Command<'a> {
    /// Prints a row per cell of the region, and if verbose also attributes and digests.
    Print {
        region: &'a [u8],
        verbose: bool,
    },
    /// Prints the flashmap's offset and areas.
    Layout,
    /// Writes the content of the first component with the name.
    Extract {
        region: &'a [u8],
        name: &'a [u8],
    },
    /// Adds the source as a component's content.
    Add {
        region: &'a [u8],
        name: &'a [u8],
        /// The CBFS type.
        kind: u32,
        hash: HashChoice,
        spot: Spot,
    },
    /// Replaces the first component with the name by free space.
    Remove {
        region: &'a [u8],
        name: &'a [u8],
    },
    /// Writes the region's bytes.
    Read {
        region: &'a [u8],
    },
    /// Replaces the region with a source of the same size.
    Write {
        region: &'a [u8],
    },
    /// Creates the image from a flashmap, the source, with each region as an empty entry.
    Create {
        regions: ArrayVec<&'a [u8], MOST_REGIONS>,
    },
}
