//! The conclusion of a report: its verdict in words, and the numbers of rows.
ghost use Rattle.std.specs.Prelude.{◌≡◌, map};
ghost use Rattle.check_report.specs.Fields.{seen_field};
ghost use Rattle.check_report.specs.Reports.{conclusion_fields};
ghost use Rattle.check_report.specs.Rows.{verdict_text};

use crate::rows::field::{Field, Value};
use crate::rows::kinds::Counts;

/// What a conclusion is about.
#[derive(Clone, Copy)]
pub enum Subject {
    /// The image, alone or after an old one.
    Image,
    /// Flashing an image over an old one.
    Flashing,
}

/// The conclusion of a report.
#[derive(Clone, Copy)]
pub struct Conclusion {
    pub subject: Subject,
    pub counts: Counts,
}

impl Conclusion {
    /// Returns the verdict in words.
    pub fn verdict(self) -> &'static str
        ensures { result.now ≡ verdict_text self }
    {
        match (self.subject, self.counts.bad == 0) {
            (Subject::Image, true) => "sound",
            (Subject::Image, false) => "not sound",
            (Subject::Flashing, true) => "may be flashed",
            (Subject::Flashing, false) => "must not be flashed",
        }
    }

    /// Returns the last fields of the JSON document.
    pub fn fields(self) -> [Field<'static>; 4]
        ensures { map seen_field result ≡ conclusion_fields self }
    {
        let counts = self.counts;
        [
            ("verdict", Value::Text(self.verdict())),
            ("bad", Value::Count(counts.bad)),
            ("remarks", Value::Count(counts.remarks)),
            ("changes", Value::Count(counts.changes)),
        ]
    }
}
