//! Lines as text.
ghost use Rattle.std.specs.Prelude.{◌≡◌, ◌++◌, [], OnOk, replicate, unwrap_or};
ghost use Rattle.std.specs.Fmt.{decimal};
ghost use Rattle.flash_format.specs.Texts.{line_feed, printed_name};
ghost use Rattle.check_report.specs.Fields.{field_text, line_text, place_text, seen_field, seen_line};
ghost use Rattle.check_report.specs.Fields.{seen_value};
ghost use Rattle.check_report.specs.Rows.{summary};
ghost use Rattle.flash_device.specs.Pages.{Lists};

use crate::rows::conclusion::Conclusion;
use crate::rows::field::{Field, Value};
use flash_format::{hexadecimal, printed_byte};
use itoa::Buffer;
use std::alloc::{AllocError, Global};

/// Appends a part to a text. Returns an error if an allocation failed.
pub fn push(text: &mut Vec<u8>, part: &[u8]) -> Result<(), AllocError>
    ensures { OnOk result (text.new.items ≡ text.old.items ++ part.now) }
{
    text.extend_from_slice(part)
}

/// Appends a decimal number. Returns an error if an allocation failed.
pub fn push_decimal(text: &mut Vec<u8>, n: u64) -> Result<(), AllocError>
    ensures { OnOk result (text.new.items ≡ text.old.items ++ decimal n) }
{
    let mut buffer = Buffer::new();
    push(text, buffer.format(n).as_bytes())
}

fn push_name(text: &mut Vec<u8>, name: &[u8]) -> Result<(), AllocError>
    ensures { OnOk result (text.new.items ≡ text.old.items ++ printed_name name.now) }
{
    for byte in name {
        push(text, printed_byte(*byte).as_slice())?;
    }
    Ok(())
}

fn push_zeros(text: &mut Vec<u8>, count: usize) -> Result<(), AllocError>
    ensures { OnOk result (text.new.items ≡ text.old.items ++ replicate count 0x30) }
{
    for _ in 0..count {
        text.push(b'0')?;
    }
    Ok(())
}

/// Appends eight hexadecimal digits, after `0x`.
#[tactic(auto, unfolding(flash_format::specs::Texts::hexadecimal))]
fn push_place(text: &mut Vec<u8>, n: u32) -> Result<(), AllocError>
    ensures { OnOk result (text.new.items ≡ text.old.items ++ place_text n) }
{
    let number = hexadecimal(u64::from(n));
    let digits = &number.as_slice()[2..];
    push(text, b"0x")?;
    push_zeros(text, 8_usize.saturating_sub(digits.len()))?;
    push(text, digits)
}

/// Appends the text of a value, if it has one. Returns an error if an allocation failed.
pub fn push_value(text: &mut Vec<u8>, value: Value<'_>) -> Result<(), AllocError>
    ensures { OnOk result (text.new.items ≡ text.old.items
        ++ unwrap_or (seen_value value.entry).text []) }
{
    match value {
        Value::Absent | Value::Code(_) => Ok(()),
        Value::Dash => push(text, b"-"),
        Value::Text(part) => push(text, part.as_bytes()),
        Value::Name(name) => push_name(text, name),
        Value::Count(n) => push_decimal(text, n),
        Value::Offset(n) | Value::Hexadecimal(n) => push(text, hexadecimal(n).as_slice()),
        Value::Place(n) => push_place(text, n),
    }
}

fn push_field(text: &mut Vec<u8>, field: Field<'_>) -> Result<(), AllocError>
    ensures { OnOk result (text.new.items ≡ text.old.items ++ field_text (seen_field field.entry)) }
{
    if !field.1.has_text() {
        return Ok(());
    }
    push(text, b"\t")?;
    push_value(text, field.1)
}

/// Returns a line as text: `head`, then a tab and the text of each field that has one. Returns an
/// error if an allocation failed.
pub fn line(alloc: Global, head: &str, fields: &[Field<'_>]) -> Result<Vec<u8>, AllocError>
    ensures { Lists result (line_text (seen_line head.now fields.now)) }
{
    let mut text = Vec::new(alloc);
    push(&mut text, head.as_bytes())?;
    for field in fields {
        push_field(&mut text, *field)?;
    }
    push(&mut text, b"\n")?;
    Ok(text)
}

/// Returns the conclusion of a report: the verdict in words, and the numbers of rows.
#[tactic(auto, unfolding(crate::specs::Rows::summary))]
pub fn summary(alloc: Global, conclusion: Conclusion) -> Result<Vec<u8>, AllocError>
    ensures { Lists result (summary conclusion) }
{
    let counts = conclusion.counts;
    let mut text = Vec::new(alloc);
    push(&mut text, conclusion.verdict().as_bytes())?;
    push(&mut text, b": ")?;
    push_decimal(&mut text, counts.bad)?;
    push(&mut text, b" bad, ")?;
    push_decimal(&mut text, counts.remarks)?;
    push(&mut text, b" remarks, ")?;
    push_decimal(&mut text, counts.changes)?;
    push(&mut text, b" changes")?;
    Ok(text)
}

/// Returns the last line of a report.
pub fn summary_line(alloc: Global, conclusion: Conclusion) -> Result<Vec<u8>, AllocError>
    ensures { Lists result (summary conclusion ++ line_feed) }
{
    let mut text = summary(alloc, conclusion)?;
    push(&mut text, b"\n")?;
    Ok(text)
}
