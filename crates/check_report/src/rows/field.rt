//! The fields of a line.
ghost use Rattle.std.specs.Prelude.{◌≡◌, is_some};
ghost use Rattle.std.specs.Option.{option_map_or};
ghost use Rattle.check_report.specs.Fields.{seen_value};
ghost use Rattle.check_report.specs.declared.rows.field.Value.TheVariants as values;

/// The value of a field, with its text and its JSON.
#[derive(Clone, Copy)]
pub enum Value<'a> {
    /// Nothing in text or JSON.
    Absent,
    /// A dash in text, nothing in JSON.
    Dash,
    /// Nothing in text, a string in JSON.
    Code(&'static str),
    /// A text without tabs and line feeds.
    Text(&'a str),
    /// In JSON a string if UTF-8, otherwise an array of bytes.
    Name(&'a [u8]),
    /// A decimal number.
    Count(u64),
    /// A hexadecimal number; a JSON number.
    Offset(u64),
    /// A hexadecimal number; a JSON string.
    Hexadecimal(u64),
    /// An offset with eight hexadecimal digits; a JSON number.
    Place(u32),
}

/// A field of a line: its JSON key and its value.
pub type Field<'a> = (&'static str, Value<'a>);

impl<'a> Value<'a> {
    /// Returns a name, or else a number.
    pub fn name_or(name: Option<&'a str>, number: u32) -> Value<'a>
        ensures { result ≡ option_map_or values.Text name.entry (values.Hexadecimal number) }
    {
        match name {
            Some(name) => Value::Text(name),
            None => Value::Hexadecimal(u64::from(number)),
        }
    }

    /// Returns whether the value has a text.
    pub fn has_text(self) -> bool
        ensures { result ≡ is_some (seen_value self.entry).text }
    {
        !matches!(self, Value::Absent | Value::Code(_))
    }
}
