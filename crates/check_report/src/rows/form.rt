//! The form of a report, and of its lines.

/// Whether a report has colours.
#[derive(Clone, Copy)]
pub enum Colours {
    Off,
    On,
}

/// The form in which a report is printed.
#[derive(Clone, Copy)]
pub enum Form {
    /// A line of tab-separated fields for each row.
    Text,
    /// One JSON document.
    Json,
    /// Tables for a person at a terminal.
    Terminal(Colours),
}

/// Columns of a table.
#[derive(Drop)]
pub struct Columns {
    pub colours: Colours,
    /// The number of characters of each column.
    pub widths: Vec<usize>,
}

/// The form in which lines are printed.
#[derive(Drop)]
pub enum LineForm {
    /// Tab-separated fields.
    Text,
    /// Objects of a JSON document.
    Json,
    /// Nothing: the cells of the lines are measured.
    Ruler,
    /// Cells in columns.
    Table(Columns),
}
