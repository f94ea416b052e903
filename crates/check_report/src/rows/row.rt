//! Rows.

ghost use Rattle.std.specs.Prelude.{◌≡◌, if◌then◌else◌, map};
ghost use Rattle.check_report.specs.Rows as rows;
ghost use Rattle.check_report.specs.Rows.{row_fields, seen_row, verdict_word};
ghost use Rattle.check_report.specs.Fields.{seen_field};
ghost use Rattle.check_report.specs.declared.rows.row.Verdict.TheVariants.{Bad, Remark};

use crate::rows::field::{Field, Value};
use check_findings::NumberedArea;

/// The classification of a row.
#[derive(Clone, Copy)]
pub enum Verdict {
    Bad,
    Remark,
    Change,
}

impl Verdict {
    /// Returns the word that begins a row as text, and is its verdict in JSON.
    pub fn word(self) -> &'static str
        ensures { result.now ≡ verdict_word self }
    {
        match self {
            Verdict::Bad => "bad",
            Verdict::Remark => "remark",
            Verdict::Change => "change",
        }
    }

    /// Returns the verdict of a finding.
    pub fn of_finding(is_bad: bool) -> Verdict
        ensures { result ≡ (if is_bad then Bad else Remark) }
    {
        if is_bad { Self::Bad } else { Self::Remark }
    }

    /// Returns a row of the whole image.
    pub fn row<'a>(self, code: &'static str, what: &'static str) -> Row<'a>
        ensures { seen_row result ≡ rows.row_of self code.now what.now }
    {
        Row {
            verdict: self,
            area: Value::Dash,
            component: Value::Dash,
            position: Value::Dash,
            code,
            what,
            detail: Value::Absent,
            other: Value::Absent,
        }
    }
}

/// A row of a report: a finding, an unmet need or a change.
#[derive(Clone, Copy)]
pub struct Row<'a> {
    pub verdict: Verdict,
    pub area: Value<'a>,
    pub component: Value<'a>,
    /// An offset in bytes.
    pub position: Value<'a>,
    /// A code that later versions keep.
    pub code: &'static str,
    /// A text without tabs and line feeds.
    pub what: &'static str,
    /// A count or an offset after the text, if any.
    pub detail: Value<'a>,
    /// The name of a second area.
    pub other: Value<'a>,
}

impl<'a> Row<'a> {
    /// Returns all fields, in their order in text and JSON. The verdict has no text here: a line in
    /// text begins with it.
    pub fn fields(&self) -> [Field<'a>; 8]
        ensures { map seen_field result ≡ row_fields (seen_row self.now) }
    {
        [
            ("verdict", Value::Code(self.verdict.word())),
            ("code", Value::Code(self.code)),
            ("area", self.area),
            ("component", self.component),
            ("position", self.position),
            ("what", Value::Text(self.what)),
            ("value", self.detail),
            ("other", self.other),
        ]
    }

    /// Sets the position, in bytes.
    pub fn at(mut self, position: u64) -> Row<'a>
        ensures { seen_row result ≡ rows.row_at position (seen_row self.entry) }
    {
        self.position = Value::Offset(position);
        self
    }

    /// Sets the name of the area.
    pub fn in_area(mut self, name: &'a [u8]) -> Row<'a>
        ensures { seen_row result ≡ rows.in_area name.now (seen_row self.entry) }
    {
        self.area = Value::Name(name);
        self
    }

    /// Sets the area, and its start as the position.
    pub fn of(self, area: &'a NumberedArea) -> Row<'a>
        ensures { seen_row result ≡ rows.of_area area.now (seen_row self.entry) }
    {
        self.in_area(area.area.text())
            .at(u64::from(area.area.offset))
    }

    /// Sets the names of the area and of the component.
    pub fn of_component(mut self, area: &'a [u8], name: &'a [u8]) -> Row<'a>
        ensures { seen_row result ≡ rows.of_component area.now name.now (seen_row self.entry) }
    {
        self.component = Value::Name(name);
        self.in_area(area)
    }

    /// Sets the component, and its position in the area.
    pub fn at_component(self, area: &'a [u8], at: u64, name: &'a [u8]) -> Row<'a>
        ensures { seen_row result ≡ rows.at_component area.now at name.now (seen_row self.entry) }
    {
        self.of_component(area, name).at(at)
    }

    /// Sets the number after the text, printed in decimal.
    pub fn count(mut self, count: u64) -> Row<'a>
        ensures { seen_row result ≡ rows.with_count count (seen_row self.entry) }
    {
        self.detail = Value::Count(count);
        self
    }

    /// Sets the number after the text, printed in hexadecimal.
    pub fn number(mut self, number: u64) -> Row<'a>
        ensures { seen_row result ≡ rows.with_number number (seen_row self.entry) }
    {
        self.detail = Value::Offset(number);
        self
    }

    /// Sets the second area, by its name.
    pub fn other(mut self, area: &'a NumberedArea) -> Row<'a>
        ensures { seen_row result ≡ rows.with_other area.now (seen_row self.entry) }
    {
        self.other = Value::Name(area.area.text());
        self
    }
}
