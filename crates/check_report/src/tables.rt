//! A report for a terminal: tables of areas, components and rows.
ghost use Rattle.std.specs.Prelude.{◌≡◌, ◌+◌, ◌++◌, ◌≤◌, [], Some, OnErr, OnOk, map};
ghost use Rattle.std.specs.Io.KnownBytes.{Appends};
ghost use Rattle.flash_device.specs.Device.{AppendsPart, fault_count};
ghost use Rattle.flash_device.specs.Pages.{Returns};
ghost use Rattle.check_report.specs.AreaLines.{area_lines};
ghost use Rattle.check_report.specs.Reports.{area_columns, component_columns, inspection_rows};
ghost use Rattle.check_report.specs.Reports.{component_table, components_in};
ghost use Rattle.check_report.specs.Reports.{row_columns, tables};
ghost use Rattle.std.specs.List.{flat_map};
ghost use Rattle.check_report.specs.Reports.{terminal_report};
ghost use Rattle.check_report.specs.Rows.{counts_of, has_bad, row_line, rows_by_verdict};
ghost use Rattle.check_report.specs.Rows.{selected_lines};
ghost use Rattle.check_report.specs.Tables.{table};
ghost use Rattle.check_report.specs.Effects.{PrintsLines, Puts, by_sink};

use crate::component_list::list_components;
use crate::fault::WriteFault;
use crate::inspection::{Inspection, WrittenReport};
use crate::request::Request;
use crate::rows::{Colours, LineForm, Printer, RowWriter, Selection, Verdict};
use flash_device::Sink;
use std::alloc::Global;

/// The headings of the aligned columns of an area. The first column has the word of the line.
const AREA_COLUMNS: [&str; 4] = ["", "IN IMAGE", "SIZE", "AREA"];

/// The headings of the aligned columns of a component.
const COMPONENT_COLUMNS: [&str; 9] = [
    "",
    "AREA",
    "COMPONENT",
    "IN AREA",
    "TYPE",
    "LENGTH",
    "COMPRESSION",
    "HASH",
    "CONTENT",
];

/// The headings of the aligned columns of a row.
const ROW_COLUMNS: [&str; 4] = ["", "AREA", "COMPONENT", "OFFSET"];

impl Inspection {
    /// Prints the table of the areas. Its lines are measured first.
    fn print_areas<W: Sink + Drop>(
        &self,
        colours: Colours,
        printer: &mut Printer<W>,
    ) -> Result<(), WriteFault>
        ensures { Puts W.Sink result printer.old.out printer.new.out
            (table colours area_columns (area_lines self.now)) }
    {
        printer.measure(&AREA_COLUMNS)?;
        self.list_areas(printer)?;
        printer.draw(colours, &AREA_COLUMNS)?;
        self.list_areas(printer)
    }

    /// Prints the table of the components. Its lines are measured first.
    fn print_all_components<W: Sink + Drop>(
        &self,
        colours: Colours,
        printer: &mut Printer<W>,
    ) -> Result<(), WriteFault>
        ensures { Puts W.Sink result printer.old.out printer.new.out
            (table colours component_columns
            (flat_map components_in self.now.findings.items)) }
    {
        printer.measure(&COMPONENT_COLUMNS)?;
        list_components(printer, &self.findings)?;
        printer.draw(colours, &COMPONENT_COLUMNS)?;
        list_components(printer, &self.findings)
    }

    /// Prints the table of the components on request.
    fn print_components<W: Sink + Drop>(
        &self,
        colours: Colours,
        request: Request<'_>,
        printer: &mut Printer<W>,
    ) -> Result<(), WriteFault>
        ensures { Puts W.Sink result printer.old.out printer.new.out
            (component_table colours request.entry self.now) }
    {
        if request.asked.lists {
            self.print_all_components(colours, printer)
        } else {
            Ok(())
        }
    }

    /// Prints or measures the rows of a verdict, within the limit of their kinds. Counts all rows.
    fn print_verdict<W: Sink + Drop>(
        &self,
        alloc: Global,
        request: Request<'_>,
        verdict: Verdict,
        rows: &mut RowWriter<W>,
    ) -> Result<(), WriteFault>
        ensures lines { PrintsLines W.Sink result rows.old.printer rows.new.printer
            (selected_lines (record {
              is_verbose = request.entry.asked.is_verbose;
              only = Some verdict;
            }) (inspection_rows request.entry self.now)) }
        ensures counts { OnOk result
            (rows.new.counts ≡ counts_of (inspection_rows request.entry self.now)) }
    {
        rows.restart(Selection {
            is_verbose: request.asked.is_verbose,
            only: Some(verdict),
        });
        self.add_rows(alloc, request, rows)?;
        rows.more()
    }

    /// Prints or measures the rows by verdict: remarks only on request. Counts all rows.
    fn print_rows<W: Sink + Drop>(
        &self,
        alloc: Global,
        request: Request<'_>,
        rows: &mut RowWriter<W>,
    ) -> Result<(), WriteFault>
        ensures lines { PrintsLines W.Sink result rows.old.printer rows.new.printer
            (map row_line (rows_by_verdict request.entry.asked.is_verbose
            (inspection_rows request.entry self.now))) }
        ensures counts { OnOk result
            (rows.new.counts ≡ counts_of (inspection_rows request.entry self.now)) }
    {
        self.print_verdict(alloc, request, Verdict::Bad, rows)?;
        self.print_verdict(alloc, request, Verdict::Change, rows)?;
        if request.asked.is_verbose {
            self.print_verdict(alloc, request, Verdict::Remark, rows)
        } else {
            Ok(())
        }
    }

    /// Prints the table of the rows. Its lines are measured first.
    fn print_row_table<W: Sink + Drop>(
        &self,
        alloc: Global,
        colours: Colours,
        request: Request<'_>,
        rows: &mut RowWriter<W>,
    ) -> Result<(), WriteFault>
        ensures bytes { Puts W.Sink result rows.old.printer.out rows.new.printer.out
            (table colours row_columns (map row_line (rows_by_verdict
            request.entry.asked.is_verbose (inspection_rows request.entry self.now)))) }
        ensures counts { OnOk result
            (rows.new.counts ≡ counts_of (inspection_rows request.entry self.now)) }
    {
        rows.printer.measure(&ROW_COLUMNS)?;
        self.print_rows(alloc, request, rows)?;
        rows.printer.draw(colours, &ROW_COLUMNS)?;
        self.print_rows(alloc, request, rows)
    }

    /// Prints all tables. Counts all rows.
    fn print_tables<W: Sink + Drop>(
        &self,
        alloc: Global,
        colours: Colours,
        request: Request<'_>,
        rows: &mut RowWriter<W>,
    ) -> Result<(), WriteFault>
        ensures bytes { Puts W.Sink result rows.old.printer.out rows.new.printer.out
            (tables colours request.entry self.now) }
        ensures counts { OnOk result
            (rows.new.counts ≡ counts_of (inspection_rows request.entry self.now)) }
    {
        self.print_areas(colours, &mut rows.printer)?;
        self.print_components(colours, request, &mut rows.printer)?;
        self.print_row_table(alloc, colours, request, rows)
    }

    /// Writes the report for a terminal: the tables, the number of hidden remarks, and the
    /// conclusion. After a fault, the sink received a proper prefix of the report.
    pub(crate) fn write_tables<W: Sink + Drop>(
        &self,
        alloc: Global,
        colours: Colours,
        request: Request<'_>,
        out: W,
    ) -> WrittenReport<W>
        ensures bad { Returns result.is_bad (has_bad (inspection_rows request.entry self.now)) }
        ensures text { OnOk result.is_bad (Appends (W.contents out) (W.contents result.out)
            (terminal_report colours request.entry self.now)) }
        ensures part { OnErr result.is_bad (AppendsPart (W.contents out) (W.contents result.out)
            (terminal_report colours request.entry self.now)) }
        ensures cause { W.faults out + fault_count by_sink result.is_bad ≤ W.faults result.out }
    {
        let printer = Printer::new(alloc, LineForm::Ruler, out);
        let mut rows = RowWriter::new(alloc, printer, request.asked.is_verbose);
        let is_bad = match self.print_tables(alloc, colours, request, &mut rows) {
            Ok(()) => rows.close(colours, request, request.subject()),
            Err(fault) => Err(fault),
        };
        WrittenReport {
            out: rows.into_inner(),
            is_bad,
        }
    }
}
