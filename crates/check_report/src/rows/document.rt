//! Parts of the JSON document.
ghost use Rattle.std.specs.Prelude.{◌≡◌, [], ◌∷◌, None, map};
ghost use Rattle.std.specs.List.{flat_map};
ghost use Rattle.flash_format.specs.Texts.{hexadecimal};
ghost use Rattle.json.specs.Print.{IsPrintable, print};
ghost use Rattle.json.specs.Reads.{token_of};
ghost use Rattle.json.specs.Token.{string};
ghost use Rattle.json.specs.Tree.{json_tokens};
ghost use Rattle.check_report.specs.declared.rows.form.LineForm.TheVariants as forms;
ghost use Rattle.check_report.specs.Fields.{name_json, seen_field, seen_line};
ghost use Rattle.check_report.specs.Reports.{ending, file_fields, member_tokens};
ghost use Rattle.check_report.specs.Reports.{next_tokens, parts, start_tokens};
ghost use Rattle.check_report.specs.Effects.{AddsTokens};
ghost use Rattle.flash_device.specs.Pages.{Lists};

use crate::request::Files;
use crate::rows::conclusion::Conclusion;
use crate::rows::field::{Field, Value};
use crate::rows::text::push;
use flash_format::hexadecimal;
use json::{Token, Writer};
use std::alloc::{AllocError, Global};

fn put(writer: &mut Writer, token: Token<'_>) -> Result<(), AllocError>
    requires { IsPrintable (token_of token) }
    ensures { AddsTokens result writer.old writer.new (token_of token.entry ∷ []) }
{
    writer.token(token)
}

fn put_name(writer: &mut Writer, name: &[u8]) -> Result<(), AllocError>
    ensures { AddsTokens result writer.old writer.new (json_tokens (name_json name.now)) }
{
    if let Ok(text) = str::from_utf8(name) {
        return put(writer, Token::String(text));
    }
    put(writer, Token::BeginArray)?;
    for byte in name {
        writer.u64(u64::from(*byte))?;
    }
    put(writer, Token::EndArray)
}

fn put_hexadecimal(writer: &mut Writer, n: u64) -> Result<(), AllocError>
    ensures { AddsTokens result writer.old writer.new (string (hexadecimal n) ∷ []) }
{
    let digits = hexadecimal(n);
    match str::from_utf8(digits.as_slice()) {
        Ok(text) => put(writer, Token::String(text)),
        Err(_) => unreachable!(),
    }
}

fn put_member(writer: &mut Writer, field: Field<'_>) -> Result<(), AllocError>
    ensures { AddsTokens result writer.old writer.new (member_tokens (seen_field field.entry)) }
{
    if matches!(field.1, Value::Absent | Value::Dash) {
        return Ok(());
    }
    put(writer, Token::Key(field.0))?;
    match field.1 {
        Value::Absent | Value::Dash => Ok(()),
        Value::Code(text) | Value::Text(text) => put(writer, Token::String(text)),
        Value::Name(name) => put_name(writer, name),
        Value::Count(n) | Value::Offset(n) => writer.u64(n),
        Value::Place(n) => writer.u64(u64::from(n)),
        Value::Hexadecimal(n) => put_hexadecimal(writer, n),
    }
}

fn put_members(writer: &mut Writer, fields: &[Field<'_>]) -> Result<(), AllocError>
    ensures { AddsTokens result writer.old writer.new
        (flat_map member_tokens (map seen_field fields.now)) }
{
    for field in fields {
        put_member(writer, *field)?;
    }
    Ok(())
}

/// Returns a line as an item of an array, after a comma if it follows another item.
pub fn line_object(
    alloc: Global,
    follows: bool,
    fields: &[Field<'_>],
) -> Result<Vec<u8>, AllocError>
    ensures { Lists result (parts forms.Json follows (seen_line [] fields.now ∷ [])) }
{
    let mut text = Vec::new(alloc);
    push(&mut text, if follows { "," } else { "" }.as_bytes())?;
    let mut writer = Writer::new(text);
    put(&mut writer, Token::BeginObject)?;
    put_members(&mut writer, fields)?;
    put(&mut writer, Token::EndObject)?;
    Ok(writer.into_inner())
}

fn file_fields<'a>(files: Files<'a>) -> [Field<'a>; 3]
    ensures { map seen_field result ≡ file_fields files.entry }
{
    [
        ("format", Value::Count(1)),
        ("image", Value::Text(files.image)),
        ("old", files.old.map_or(Value::Absent, Value::Text)),
    ]
}

/// Returns the document up to the start of this array.
pub fn json_start(alloc: Global, files: Files<'_>, array: &str) -> Result<Vec<u8>, AllocError>
    ensures { Lists result (print (start_tokens (file_fields files.entry) array.now)) }
{
    let mut writer = Writer::new(Vec::new(alloc));
    put(&mut writer, Token::BeginObject)?;
    put_members(&mut writer, &file_fields(files))?;
    put(&mut writer, Token::Key(array))?;
    put(&mut writer, Token::BeginArray)?;
    Ok(writer.into_inner())
}

/// Returns the document from the end of an array to the start of this array.
pub fn json_next(alloc: Global, array: &str) -> Result<Vec<u8>, AllocError>
    ensures { Lists result (print (next_tokens array.now)) }
{
    let mut writer = Writer::new(Vec::new(alloc));
    put(&mut writer, Token::EndArray)?;
    put(&mut writer, Token::Key(array))?;
    put(&mut writer, Token::BeginArray)?;
    Ok(writer.into_inner())
}

/// Returns the document from the end of the array of rows.
pub fn json_end(alloc: Global, conclusion: Conclusion) -> Result<Vec<u8>, AllocError>
    ensures { Lists result (ending forms.Json conclusion) }
{
    let mut writer = Writer::new(Vec::new(alloc));
    put(&mut writer, Token::EndArray)?;
    put_members(&mut writer, &conclusion.fields())?;
    put(&mut writer, Token::EndObject)?;
    let mut text = writer.into_inner();
    push(&mut text, b"\n")?;
    Ok(text)
}
