//! A report, printed line by line.
ghost use Rattle.std.specs.Prelude.{◌≡◌, ◌∷◌, [], OnErr, OnOk, false, length, map};
ghost use Rattle.flash_device.specs.Device.{AppendsPart};
ghost use Rattle.flash_device.specs.Pages.{Lists};
ghost use Rattle.check_report.specs.Fields.{seen_line};
ghost use Rattle.check_report.specs.Reports.{closing, ending, file_fields, part, parts};
ghost use Rattle.check_report.specs.Reports.{next_tokens, start_tokens, widths_after};
ghost use Rattle.check_report.specs.Tables.{heading_cells, heading_if};
ghost use Rattle.check_report.specs.Effects.{Prints, PrintsLines, Puts};
ghost use Rattle.check_report.specs.declared.rows.form.LineForm.TheVariants as forms;

use crate::fault::WriteFault;
use crate::request::{Files, Request};
use crate::rows::closing::closing;
use crate::rows::conclusion::Conclusion;
use crate::rows::document::{json_end, json_next, json_start, line_object};
use crate::rows::field::Field;
use crate::rows::form::{Colours, Columns, LineForm};
use crate::rows::table::{cells, widen};
use crate::rows::text::{line, summary_line};
use flash_device::{Sink, put_all};
use std::alloc::{AllocError, Global};
use std::mem;

/// A printer of lines, without a buffer.
#[derive(Drop)]
pub struct Printer<W: Sink + Drop> {
    pub alloc: Global,
    form: LineForm,
    pub out: W,
    follows: bool,
    /// The widths of the measured columns.
    widths: Vec<usize>,
}

impl<W: Sink + Drop> Printer<W> {
    /// Returns a printer that has printed nothing.
    pub fn new(alloc: Global, form: LineForm, out: W) -> Printer<W>
        ensures out { result.out ≡ out }
        ensures form { result.form ≡ form }
    {
        Printer {
            alloc,
            form,
            out,
            follows: false,
            widths: Vec::new(alloc),
        }
    }

    /// Returns the sink.
    pub fn into_inner(self) -> W
        ensures { result ≡ self.out }
    {
        let Printer { out, .. } = self;
        out
    }

    /// Prints the report up to this array's first item.
    pub fn start(&mut self, files: Files<'_>, array: &str) -> Result<(), WriteFault>
        ensures { Prints W.Sink result self.old self.new (part self.old.form false []
            (start_tokens (file_fields files.entry) array.now)) false }
    {
        self.follows = false;
        match self.form {
            LineForm::Json => self.put(&json_start(self.alloc, files, array)?),
            LineForm::Text | LineForm::Ruler | LineForm::Table(_) => Ok(()),
        }
    }

    /// Measures the columns under this heading in the following lines, which are not printed.
    /// Returns an error if an allocation failed.
    pub fn measure(&mut self, heading: &[&str]) -> Result<(), AllocError>
        ensures form { OnOk result (self.new.form ≡ forms.Ruler) }
        ensures follows { OnOk result (self.new.follows ≡ false) }
        ensures widths { OnOk result
            (self.new.widths.items ≡ map length (heading_cells heading.now)) }
        ensures out { self.new.out ≡ self.old.out }
    {
        let mut widths = Vec::new(self.alloc);
        for text in heading {
            widths.push(text.len())?;
        }
        self.widths = widths;
        self.form = LineForm::Ruler;
        self.follows = false;
        Ok(())
    }

    /// Prints the heading if a line was measured, and the following lines in columns of the
    /// measured widths.
    pub fn draw(&mut self, colours: Colours, heading: &[&str]) -> Result<(), WriteFault>
        ensures form { OnOk result (self.new.form
            ≡ forms.Table (record { colours = colours; widths = self.old.widths })) }
        ensures heading { Puts W.Sink result self.old.out self.new.out
            (heading_if self.old.follows self.old.widths.items (heading_cells heading.now)) }
    {
        let widths = mem::replace(&mut self.widths, Vec::new(self.alloc));
        let columns = Columns { colours, widths };
        let line = columns.heading_if(self.alloc, self.follows, heading)?;
        self.form = LineForm::Table(columns);
        self.put(&line)
    }

    /// Measures the cells of a line, if the columns are to be measured.
    fn measure_line(&mut self, head: &str, fields: &[Field<'_>]) -> Result<(), AllocError>
        ensures widths { OnOk result (self.new.widths.items ≡ widths_after self.old.form
            self.old.widths.items (seen_line head.now fields.now ∷ [])) }
        ensures rest { self.new ≡ record self.old { widths = self.new.widths } }
    {
        if let LineForm::Ruler = self.form {
            let cells = cells(self.alloc, head, fields)?;
            widen(&mut self.widths, &cells);
        }
        Ok(())
    }

    /// Returns a line in the form of the printer.
    fn part(&self, head: &str, fields: &[Field<'_>]) -> Result<Vec<u8>, AllocError>
        ensures { Lists result (parts self.now.form self.now.follows
            (seen_line head.now fields.now ∷ [])) }
    {
        match &self.form {
            LineForm::Text => line(self.alloc, head, fields),
            LineForm::Json => line_object(self.alloc, self.follows, fields),
            LineForm::Ruler => Ok(Vec::new(self.alloc)),
            LineForm::Table(columns) => columns.line(self.alloc, head, fields),
        }
    }

    /// Prints a line: in text `head` and the fields, in JSON an object of the fields, and in a
    /// table the cells in columns. After an error, a prefix of the line is printed.
    pub fn line(&mut self, head: &str, fields: &[Field<'_>]) -> Result<(), WriteFault>
        ensures { PrintsLines W.Sink result self.old self.new (seen_line head.now fields.now ∷ []) }
    {
        self.measure_line(head, fields)?;
        let part = self.part(head, fields)?;
        self.follows = true;
        self.put(&part)
    }

    /// Prints the part between an array and the next one, which has this name.
    pub fn next_array(&mut self, array: &str) -> Result<(), WriteFault>
        ensures { Prints W.Sink result self.old self.new
            (part self.old.form false [] (next_tokens array.now)) false }
    {
        self.follows = false;
        match self.form {
            LineForm::Json => self.put(&json_next(self.alloc, array)?),
            LineForm::Text | LineForm::Ruler | LineForm::Table(_) => Ok(()),
        }
    }

    /// Returns the end of the report.
    fn ending(&self, conclusion: Conclusion) -> Result<Vec<u8>, AllocError>
        ensures { Lists result (ending self.now.form conclusion) }
    {
        match &self.form {
            LineForm::Text => summary_line(self.alloc, conclusion),
            LineForm::Json => json_end(self.alloc, conclusion),
            LineForm::Ruler => summary_line(self.alloc, conclusion),
            LineForm::Table(_) => summary_line(self.alloc, conclusion),
        }
    }

    /// Prints the end of the report: its conclusion. After an error, a part of the end is missing.
    pub fn end(&mut self, conclusion: Conclusion) -> Result<(), WriteFault>
        ensures prints { Prints W.Sink result self.old self.new
            (ending self.old.form conclusion) self.old.follows }
        ensures part { OnErr result (AppendsPart (W.contents self.old.out)
            (W.contents self.new.out) (ending self.old.form conclusion)) }
    {
        let end = self.ending(conclusion)?;
        self.put(&end)
    }

    /// Prints the end of a report for a terminal. After an error, a part of the end is missing.
    pub fn close(
        &mut self,
        colours: Colours,
        request: Request<'_>,
        conclusion: Conclusion,
    ) -> Result<(), WriteFault>
        ensures prints { Prints W.Sink result self.old self.new
            (closing colours request.entry conclusion) self.old.follows }
        ensures part { OnErr result (AppendsPart (W.contents self.old.out)
            (W.contents self.new.out) (closing colours request.entry conclusion)) }
    {
        let end = closing(self.alloc, colours, request, conclusion)?;
        self.put(&end)
    }

    fn put(&mut self, part: &[u8]) -> Result<(), WriteFault>
        ensures prints { Prints W.Sink result self.old self.new part.now self.old.follows }
        ensures part { OnErr result
            (AppendsPart (W.contents self.old.out) (W.contents self.new.out) part.now) }
        ensures rest { self.new ≡ record self.old { out = self.new.out } }
    {
        put_all(&mut self.out, part)?;
        Ok(())
    }
}
