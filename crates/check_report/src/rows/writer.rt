//! The rows of a report.
ghost use Rattle.std.specs.Prelude.{◌≡◌, ◌&&◌, ◌||◌, ◌+◌, ◌≤◌, ◌∷◌, [], None, OnErr, OnOk, map};
ghost use Rattle.std.specs.Prelude.{nat_lt, if◌then◌else◌};
ghost use Rattle.std.specs.Io.KnownBytes.{Appends};
ghost use Rattle.std.specs.List.{flat_map};
ghost use Rattle.flash_device.specs.Device.{AppendsPart, fault_count};
ghost use Rattle.flash_device.specs.Pages.{Returns};
ghost use Rattle.check_findings.specs.Lists.{only_if};
ghost use Rattle.check_report.specs.Reports.{closing};
ghost use Rattle.check_report.specs.Rows.{is_selected, more_of, row_line, seen_kind, seen_row};
ghost use Rattle.check_report.specs.Rows.{selected};
ghost use Rattle.check_report.specs.Effects.{Adds, Ends, HasWritten, PrintsLines, by_sink};

use crate::fault::WriteFault;
use crate::request::Request;
use crate::rows::conclusion::{Conclusion, Subject};
use crate::rows::form::Colours;
use crate::rows::kinds::{Counts, Kind, count_by_kind};
use crate::rows::printer::Printer;
use crate::rows::row::{Row, Verdict};
use flash_device::Sink;
use std::alloc::Global;

/// The most shown rows of a kind, without `-v`.
const MOST: u64 = 16;

/// The rows that a writer prints.
#[derive(Clone, Copy)]
pub struct Selection {
    /// All rows of a kind, not only the first 16.
    pub is_verbose: bool,
    /// The rows of this verdict only.
    pub only: Option<Verdict>,
}

impl Selection {
    /// Returns whether a row is selected by its verdict.
    fn has(self, row: &Row<'_>) -> bool
        ensures { result ≡ is_selected self.only (seen_row row.now) }
    {
        match self.only {
            Some(verdict) => verdict.word() == row.verdict.word(),
            None => true,
        }
    }

    /// Returns whether a row is printed, by the number of earlier rows of its kind.
    fn shows(self, row: &Row<'_>, before: u64) -> bool
        ensures { result ≡ (is_selected self.only (seen_row row.now)
            && (self.is_verbose || nat_lt before 16)) }
    {
        self.has(row) && (self.is_verbose || before < MOST)
    }

    /// Returns whether the row for the hidden rows of a kind is printed.
    fn shows_more(self, row: &Row<'_>, count: u64) -> bool
        ensures { result ≡ (is_selected self.only (seen_row row.now) && nat_lt 16 count) }
    {
        self.has(row) && count > MOST
    }
}

/// A writer that counts rows by kind, and keeps no row.
#[derive(Drop)]
pub struct RowWriter<W: Sink + Drop> {
    pub printer: Printer<W>,
    selection: Selection,
    kinds: Vec<Kind>,
    counts: Counts,
}

fn limited(is_verbose: bool, kinds: &[Kind]) -> &[Kind]
    ensures { result.now ≡ (if is_verbose then [] else kinds.now) }
{
    if is_verbose { &kinds[..0] } else { kinds }
}

impl<W: Sink + Drop> Printer<W> {
    fn row_if(&mut self, is_shown: bool, row: &Row<'_>) -> Result<(), WriteFault>
        ensures { PrintsLines W.Sink result self.old self.new
            (map row_line (only_if is_shown (seen_row row.now))) }
    {
        if is_shown {
            self.line(row.verdict.word(), &row.fields())
        } else {
            Ok(())
        }
    }

    fn more(&mut self, selection: Selection, kinds: &[Kind]) -> Result<(), WriteFault>
        ensures { PrintsLines W.Sink result self.old self.new (flat_map
            (λ kind. map row_line (selected selection.only (more_of (seen_kind kind)))) kinds.now) }
    {
        for kind in kinds {
            let row = kind.verdict.row(kind.code, "more of these");
            let hidden = kind.count.saturating_sub(MOST);
            let more = row.count(hidden);
            let is_shown = selection.shows_more(&more, kind.count);
            self.row_if(is_shown, &more)?;
        }
        Ok(())
    }
}

impl<W: Sink + Drop> RowWriter<W> {
    /// Returns a writer without rows. A verbose writer prints all rows of a kind.
    pub fn new(alloc: Global, printer: Printer<W>, is_verbose: bool) -> RowWriter<W>
        ensures sound { HasWritten W.Sink printer
            (record { is_verbose = is_verbose; only = None }) [] result }
        ensures printer { result.printer ≡ printer }
    {
        RowWriter {
            printer,
            selection: Selection {
                is_verbose,
                only: None,
            },
            kinds: Vec::new(alloc),
            counts: Counts::ZERO,
        }
    }

    /// Returns the sink.
    pub fn into_inner(self) -> W
        ensures { result ≡ self.printer.out }
    {
        let RowWriter { printer, .. } = self;
        printer.into_inner()
    }

    /// Forgets all rows. The next rows are printed by this selection.
    pub fn restart(&mut self, selection: Selection)
        ensures sound { HasWritten W.Sink self.old.printer selection [] self.new }
        ensures printer { self.new.printer ≡ self.old.printer }
    {
        self.selection = selection;
        self.kinds.clear();
        self.counts = Counts::ZERO;
    }

    /// Adds a row, and prints it unless 16 rows of its kind precede it. Returns `Output` if the
    /// sink failed, and `Memory` if an allocation failed.
    pub fn add(&mut self, row: Row<'_>) -> Result<(), WriteFault>
        ensures { Adds W.Sink result self.old self.new (seen_row row.entry ∷ []) }
    {
        let before = count_by_kind(&mut self.kinds, &row)?;
        self.counts = self.counts.with(&row)?;
        let is_shown = self.selection.shows(&row, before);
        self.printer.row_if(is_shown, &row)
    }

    /// Adds a row if the condition holds, like `add`.
    pub fn add_if(&mut self, is_there: bool, row: Row<'_>) -> Result<(), WriteFault>
        ensures { Adds W.Sink result self.old self.new (only_if is_there (seen_row row.entry)) }
    {
        if is_there { self.add(row) } else { Ok(()) }
    }

    /// Prints a row for the hidden rows of each selected kind.
    pub fn more(&mut self) -> Result<(), WriteFault>
        ensures lines { PrintsLines W.Sink result self.old.printer self.new.printer (flat_map
            (λ kind. map row_line (selected self.old.selection.only (more_of (seen_kind kind))))
            (if self.old.selection.is_verbose then [] else self.old.kinds.items)) }
        ensures counts { self.new.counts ≡ self.old.counts }
    {
        let kinds = limited(self.selection.is_verbose, &self.kinds);
        self.printer.more(self.selection, kinds)
    }

    /// Prints the end. Returns whether a row is bad.
    pub fn finish(&mut self, subject: Subject) -> Result<bool, WriteFault>
        ensures { Ends W.Sink subject result self.old self.new }
    {
        self.more()?;
        self.printer.end(Conclusion {
            subject,
            counts: self.counts,
        })?;
        Ok(self.counts.bad > 0)
    }

    /// Prints the end of a report for a terminal. Returns whether a row is bad.
    pub fn close(
        &mut self,
        colours: Colours,
        request: Request<'_>,
        subject: Subject,
    ) -> Result<bool, WriteFault>
        ensures bad { Returns result (nat_lt 0 self.old.counts.bad) }
        ensures text { OnOk result (Appends (W.contents self.old.printer.out)
            (W.contents self.new.printer.out) (closing colours request.entry
            (record { subject = subject; counts = self.old.counts }))) }
        ensures part { OnErr result (AppendsPart (W.contents self.old.printer.out)
            (W.contents self.new.printer.out) (closing colours request.entry
            (record { subject = subject; counts = self.old.counts }))) }
        ensures cause { W.faults self.old.printer.out + fault_count by_sink result
            ≤ W.faults self.new.printer.out }
    {
        let counts = self.counts;
        self.printer
            .close(colours, request, Conclusion { subject, counts })?;
        Ok(counts.bad > 0)
    }
}
