//! The lines of a report, as tab-separated text, one JSON document or tables.

mod closing;
mod conclusion;
mod document;
mod field;
mod form;
mod kinds;
mod printer;
mod row;
mod style;
mod table;
mod text;
mod writer;

pub use conclusion::{Conclusion, Subject};
pub use field::{Field, Value};
pub use form::{Colours, Form, LineForm};
pub use printer::Printer;
pub use row::{Row, Verdict};
pub use style::Style;
pub use writer::{RowWriter, Selection};
