//! The arguments of a check.
ghost use Rattle.std.specs.Prelude.{◌≡◌};
ghost use Rattle.check_report.specs.Reports.{subject_of};

use crate::rows::{Form, Subject};
use check_findings::Need;

/// The optional parts of a report.
#[derive(Clone, Copy)]
pub struct Asked {
    /// Show all rows, also for components without a digest.
    pub is_verbose: bool,
    /// Require a digest for each component.
    pub needs_hashes: bool,
    /// List all components.
    pub lists: bool,
}

/// The paths of the images.
#[derive(Clone, Copy)]
pub struct Files<'a> {
    /// The new or only image.
    pub image: &'a str,
    pub old: Option<&'a str>,
}

/// The arguments of a check.
#[derive(Clone, Copy)]
pub struct Request<'a> {
    /// The names of areas to check in any case.
    pub areas: &'a [&'a [u8]],
    /// The required components.
    pub needs: &'a [Need<'a>],
    /// The names of areas that must not change.
    pub kept: &'a [&'a [u8]],
    /// Areas with the flag PRESERVE in either map must not change.
    pub keeps_preserved: bool,
    /// The image is to be flashed over the old one. Another name or base address of the flash map
    /// is bad, and so is that no area is kept. The conclusion tells whether it may be flashed.
    pub is_strict: bool,
    pub asked: Asked,
    pub form: Form,
    pub files: Files<'a>,
}

impl Request<'_> {
    /// Returns what the conclusion of the report is about.
    pub fn subject(self) -> Subject
        ensures { result ≡ subject_of self.entry }
    {
        if self.is_strict {
            Subject::Flashing
        } else {
            Subject::Image
        }
    }
}
