//! Lines of a table.
ghost use Rattle.std.specs.Prelude.{◌≡◌, ◌++◌, IfOk, OnOk, drop, map, slice_get};
ghost use Rattle.check_report.specs.Fields.{seen_field, seen_line};
ghost use Rattle.check_report.specs.Tables.{blanks, cells, field_cells, first_length, gap};
ghost use Rattle.check_report.specs.Tables.{gap_before, heading_if, in_columns, table_line};
ghost use Rattle.check_report.specs.Tables.{heading_cells, widened};
ghost use Rattle.flash_device.specs.Pages.{Lists};

use crate::rows::field::Field;
use crate::rows::form::Columns;
use crate::rows::style::Style;
use crate::rows::text::{push, push_value};
use std::alloc::{AllocError, Global};

/// Appends the cell of a field, if it has a text.
fn push_cell(alloc: Global, cells: &mut Vec<Vec<u8>>, field: Field<'_>) -> Result<(), AllocError>
    ensures { OnOk result (map (λ cell. cell.items) cells.new.items
        ≡ map (λ cell. cell.items) cells.old.items ++ field_cells (seen_field field.entry)) }
{
    if !field.1.has_text() {
        return Ok(());
    }
    let mut cell = Vec::new(alloc);
    push_value(&mut cell, field.1)?;
    if cell.is_empty() {
        push(&mut cell, b"-")?;
    }
    cells.push(cell)?;
    Ok(())
}

/// Returns the cells of a line: its first word, and the text of each field that has one.
pub fn cells(alloc: Global, head: &str, fields: &[Field<'_>]) -> Result<Vec<Vec<u8>>, AllocError>
    ensures { IfOk result (λ found. map (λ cell. cell.items) found.items
        ≡ cells (seen_line head.now fields.now)) }
{
    let mut cells = Vec::new(alloc);
    let mut first = Vec::new(alloc);
    push(&mut first, head.as_bytes())?;
    cells.push(first)?;
    for field in fields {
        push_cell(alloc, &mut cells, *field)?;
    }
    Ok(cells)
}

/// Returns the length of the cell with this index, or 0 after the last cell.
fn length_at(cells: &[Vec<u8>], i: usize) -> usize
    ensures { result ≡ first_length (drop i (map (λ cell. cell.items) cells.now)) }
{
    match cells.get(i) {
        Some(cell) => cell.as_slice().len(),
        None => 0,
    }
}

/// Widens the columns that are narrower than their cells.
pub fn widen(widths: &mut [usize], cells: &[Vec<u8>])
    ensures { widths.new ≡ widened widths.old (map (λ cell. cell.items) cells.now) }
{
    for i in 0..widths.len() {
        widths[i] = widths[i].max(length_at(cells, i));
    }
}

fn push_blanks(text: &mut Vec<u8>, count: usize) -> Result<(), AllocError>
    ensures { OnOk result (text.new.items ≡ text.old.items ++ blanks count) }
{
    for _ in 0..count {
        text.push(b' ')?;
    }
    Ok(())
}

/// Appends the blanks after a cell of this length, which is not the last one of its line.
fn push_gap(text: &mut Vec<u8>, width: Option<usize>, length: usize) -> Result<(), AllocError>
    ensures { OnOk result (text.new.items ≡ text.old.items ++ gap width length) }
{
    match width {
        Some(width) => {
            push_blanks(text, width.saturating_sub(length))?;
            push(text, b"  ")
        }
        None => push(text, b" "),
    }
}

/// Appends the blanks between a cell of this length and the next one, if any.
fn push_gap_before(
    text: &mut Vec<u8>,
    next: &[Vec<u8>],
    width: Option<usize>,
    length: usize,
) -> Result<(), AllocError>
    ensures { OnOk result (text.new.items ≡ text.old.items
        ++ gap_before (map (λ cell. cell.items) next.now) width length) }
{
    if next.is_empty() {
        Ok(())
    } else {
        push_gap(text, width, length)
    }
}

/// Returns the width of the column with this index, or none after the last column.
fn width_at(widths: &[usize], i: usize) -> Option<usize>
    ensures { result ≡ slice_get widths.now i }
{
    widths.get(i).copied()
}

/// Returns the cells in columns of these widths.
fn in_columns(alloc: Global, widths: &[usize], cells: &[Vec<u8>]) -> Result<Vec<u8>, AllocError>
    ensures { Lists result (in_columns widths.now (map (λ cell. cell.items) cells.now)) }
{
    let mut text = Vec::new(alloc);
    for i in 0..cells.len() {
        let cell = cells[i].as_slice();
        push(&mut text, cell)?;
        push_gap_before(&mut text, &cells[i + 1..], width_at(widths, i), cell.len())?;
    }
    Ok(text)
}

/// Returns the cells of a heading.
fn heading_cells(alloc: Global, heading: &[&str]) -> Result<Vec<Vec<u8>>, AllocError>
    ensures { IfOk result (λ found. map (λ cell. cell.items) found.items
        ≡ heading_cells heading.now) }
{
    let mut cells = Vec::new(alloc);
    for text in heading {
        let mut cell = Vec::new(alloc);
        push(&mut cell, text.as_bytes())?;
        cells.push(cell)?;
    }
    Ok(cells)
}

impl Columns {
    /// Returns the line of the heading, if lines follow. Returns an error if an allocation failed.
    pub fn heading_if(
        &self,
        alloc: Global,
        has_lines: bool,
        heading: &[&str],
    ) -> Result<Vec<u8>, AllocError>
        ensures { Lists result
            (heading_if has_lines self.now.widths.items (heading_cells heading.now)) }
    {
        if !has_lines {
            return Ok(Vec::new(alloc));
        }
        let cells = heading_cells(alloc, heading)?;
        let mut line = in_columns(alloc, &self.widths, &cells)?;
        push(&mut line, b"\n")?;
        Ok(line)
    }

    /// Returns a line of the table. Returns an error if an allocation failed.
    pub fn line(
        &self,
        alloc: Global,
        head: &str,
        fields: &[Field<'_>],
    ) -> Result<Vec<u8>, AllocError>
        ensures { Lists result (table_line self.now.colours self.now.widths.items
            (seen_line head.now fields.now)) }
    {
        let cells = cells(alloc, head, fields)?;
        let columns = in_columns(alloc, &self.widths, &cells)?;
        let mut line = Vec::new(alloc);
        self.colours.push(&mut line, Style::of(head), &columns)?;
        push(&mut line, b"\n")?;
        Ok(line)
    }
}
