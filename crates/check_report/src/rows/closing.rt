//! The end of a report for a terminal.
ghost use Rattle.std.specs.Prelude.{◌≡◌, ◌++◌, [], OnOk, if◌then◌else◌};
ghost use Rattle.check_report.specs.Reports.{closing, conclusion_style, counted, counted_changes};
ghost use Rattle.check_report.specs.Reports.{hidden_remarks, sentence};
ghost use Rattle.flash_device.specs.Pages.{Lists};

use crate::request::{Files, Request};
use crate::rows::conclusion::Conclusion;
use crate::rows::form::Colours;
use crate::rows::style::Style;
use crate::rows::text::{push, push_decimal};
use std::alloc::{AllocError, Global};

/// Appends a line with the number of remarks that are not shown, if there are any.
fn push_hidden(text: &mut Vec<u8>, remarks: u64) -> Result<(), AllocError>
    ensures { OnOk result (text.new.items ≡ text.old.items ++ hidden_remarks remarks) }
{
    match remarks {
        0 => Ok(()),
        1 => push(text, b"1 remark is not shown: -v shows it\n"),
        _ => {
            push_decimal(text, remarks)?;
            push(text, b" remarks are not shown: -v shows them\n")
        }
    }
}

fn conclusion_style(conclusion: Conclusion) -> Style
    ensures { result ≡ conclusion_style conclusion }
{
    if conclusion.counts.bad == 0 {
        Style::Good
    } else {
        Style::Bad
    }
}

/// Appends a number and a noun, in the plural except for 1.
fn push_counted(text: &mut Vec<u8>, n: u64, noun: &str) -> Result<(), AllocError>
    ensures { OnOk result (text.new.items ≡ text.old.items ++ counted n noun.now) }
{
    push_decimal(text, n)?;
    push(text, b" ")?;
    push(text, noun.as_bytes())?;
    push(text, if n == 1 { "" } else { "s" }.as_bytes())
}

/// Appends the number of changes, if there is an old image.
fn push_changes(
    text: &mut Vec<u8>,
    files: Files<'_>,
    conclusion: Conclusion,
) -> Result<(), AllocError>
    ensures { OnOk result
        (text.new.items ≡ text.old.items ++ counted_changes files.entry conclusion) }
{
    if files.old.is_none() {
        return Ok(());
    }
    push(text, b", ")?;
    push_counted(text, conclusion.counts.changes, "change")
}

/// Returns the conclusion for a reader.
fn sentence(alloc: Global, files: Files<'_>, conclusion: Conclusion) -> Result<Vec<u8>, AllocError>
    ensures { Lists result (sentence files.entry conclusion) }
{
    let mut text = Vec::new(alloc);
    push(&mut text, conclusion.verdict().as_bytes())?;
    push(&mut text, b": ")?;
    push_decimal(&mut text, conclusion.counts.bad)?;
    push(&mut text, b" bad, ")?;
    push_counted(&mut text, conclusion.counts.remarks, "remark")?;
    push_changes(&mut text, files, conclusion)?;
    Ok(text)
}

/// Returns the lines after the tables: the number of hidden remarks, and the conclusion. Returns an
/// error if an allocation failed.
pub fn closing(
    alloc: Global,
    colours: Colours,
    request: Request<'_>,
    conclusion: Conclusion,
) -> Result<Vec<u8>, AllocError>
    ensures { Lists result (closing colours request.entry conclusion) }
{
    let mut text = Vec::new(alloc);
    let hidden = if request.asked.is_verbose {
        0
    } else {
        conclusion.counts.remarks
    };
    push_hidden(&mut text, hidden)?;
    let sentence = sentence(alloc, request.files, conclusion)?;
    colours.push(&mut text, conclusion_style(conclusion), &sentence)?;
    push(&mut text, b"\n")?;
    Ok(text)
}
