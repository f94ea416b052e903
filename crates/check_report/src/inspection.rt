//! The result of a check, and its report.
ghost use Rattle.std.specs.Prelude.{◌≡◌, ◌+◌, ◌≤◌, false, OnErr, OnOk};
ghost use Rattle.std.specs.Io.KnownBytes.{Appends};
ghost use Rattle.flash_device.specs.Device.{AppendsPart, fault_count};
ghost use Rattle.check_report.specs.Reports.{areas_or, change_rows, inspection_rows, listed};
ghost use Rattle.check_report.specs.Reports.{lines_report, report, structure_rows};
ghost use Rattle.flash_device.specs.Pages.{Returns};
ghost use Rattle.check_report.specs.Reports.{area_heading, heading, listed_heading, listing};
ghost use Rattle.check_report.specs.Rows.{has_bad};
ghost use Rattle.check_report.specs.Effects.{Adds, Prints, by_sink};

use crate::board::add_board;
use crate::changes::{
    add_anchor_change, add_area_changes, add_image_changes, add_map_changes, add_region_changes,
};
use crate::component_list::list_hashed;
use crate::fault::WriteFault;
use crate::findings::{add_findings, add_needs};
use crate::kept::add_absent;
use crate::map_list::list_map;
use crate::names::{KnownNames, kept_names, with_areas};
use crate::request::{Files, Request};
use crate::rows::{Form, LineForm, Printer, RowWriter};
use crate::slot_changes::add_outdated_slots;
use crate::structures::add_lost_structures;
use board_findings::{BoardFinding, Slot, Structure};
use check_changes::{AnchorChange, AreaChange, MapChange, RegionChange};
use check_digests::ComponentDigests;
use check_findings::{ImageFinding, ImageMap, NumberedArea};
use flash_device::Sink;
use std::alloc::Global;

/// The differences between two images.
#[derive(Drop)]
pub struct Comparison {
    pub old_len: u64,
    pub new_len: u64,
    /// The number of different blocks of 4096 bytes.
    pub blocks: u32,
    pub map: Vec<MapChange>,
    pub anchor: Option<AnchorChange>,
    /// The structures of the board that the old image has, and the new one has not.
    pub structures: Vec<Structure>,
    /// The slots whose signed bytes changed, but not their signatures.
    pub outdated: Vec<Slot>,
    pub areas: Vec<AreaChange>,
    pub regions: Vec<RegionChange>,
}

/// The flash map and the CBFS areas of an old image.
#[derive(Drop)]
pub struct OldImage {
    pub map: ImageMap,
    pub regions: Vec<NumberedArea>,
}

impl OldImage {
    /// Returns the areas for a comparison: the new areas if the old image has no map.
    pub fn areas_or<'a>(&'a self, new_areas: &'a [NumberedArea]) -> &'a [NumberedArea]
        ensures { result.now ≡ areas_or self.now new_areas.now }
    {
        if self.map.found.is_none() {
            new_areas
        } else {
            &self.map.areas
        }
    }
}

/// The changes from an old image.
#[derive(Drop)]
pub struct Changes {
    pub comparison: Comparison,
    pub old: OldImage,
}

/// The findings of an image and of its board's structures, and its changes, if any.
#[derive(Drop)]
pub struct Inspection {
    /// The areas of the image's flash map.
    pub areas: Vec<NumberedArea>,
    pub findings: Vec<ImageFinding>,
    pub board: Vec<BoardFinding>,
    /// The digests of all components, in the order of the findings; empty without a list.
    pub digests: Vec<ComponentDigests>,
    pub changes: Option<Changes>,
}

/// Adds the rows of the structures that are lost, and of the slots with outdated signatures.
fn add_structure_changes<W: Sink + Drop>(
    rows: &mut RowWriter<W>,
    found: &Comparison,
) -> Result<(), WriteFault>
    ensures { Adds W.Sink result rows.old rows.new (structure_rows found.now) }
{
    add_lost_structures(rows, &found.structures)?;
    add_outdated_slots(rows, &found.outdated)
}

fn add_changes<W: Sink + Drop>(
    alloc: Global,
    rows: &mut RowWriter<W>,
    request: Request<'_>,
    new_areas: &[NumberedArea],
    changes: &Changes,
) -> Result<(), WriteFault>
    ensures { Adds W.Sink result rows.old rows.new
        (change_rows request.entry new_areas.now changes.now) }
{
    let kept = KnownNames::of(alloc, kept_names(alloc, request, new_areas, changes)?)?;
    let vital = with_areas(alloc, &kept.names, &changes.old.regions)?;
    let vital = KnownNames::of(alloc, vital)?;
    let found = &changes.comparison;
    add_image_changes(rows, found.old_len, found.new_len, found.blocks)?;
    add_map_changes(rows, request.is_strict, &found.map)?;
    add_anchor_change(rows, found.anchor)?;
    add_structure_changes(rows, found)?;
    add_area_changes(rows, &kept, &vital, &found.areas)?;
    add_region_changes(rows, &kept, &found.regions)?;
    add_absent(rows, request, new_areas, changes)
}

/// A sink after a report, and the result.
#[derive(Drop)]
pub struct WrittenReport<W> {
    pub out: W,
    /// Whether a row is bad. After a fault the sink has a proper prefix of the report.
    pub is_bad: Result<bool, WriteFault>,
}

impl Inspection {
    /// Adds the rows of findings, needs, structures and changes, in order.
    pub(crate) fn add_rows<W: Sink + Drop>(
        &self,
        alloc: Global,
        request: Request<'_>,
        rows: &mut RowWriter<W>,
    ) -> Result<(), WriteFault>
        ensures { Adds W.Sink result rows.old rows.new (inspection_rows request.entry self.now) }
    {
        add_findings(rows, request.asked, &self.findings, request.areas)?;
        add_needs(rows, &self.findings, request.needs)?;
        add_board(rows, &self.board)?;
        match &self.changes {
            Some(changes) => add_changes(alloc, rows, request, &self.areas, changes),
            None => Ok(()),
        }
    }

    /// Prints the areas of a list, and the start of its components.
    fn print_area_heading<W: Sink + Drop>(
        &self,
        files: Files<'_>,
        printer: &mut Printer<W>,
    ) -> Result<(), WriteFault>
        ensures { Prints W.Sink result printer.old printer.new
            (area_heading printer.old.form files.entry (listing self.now).areas) false }
    {
        printer.start(files, "areas")?;
        list_map(printer, &self.areas)?;
        printer.next_array("components")
    }

    /// Prints the list, and the start of the rows.
    fn print_listed_heading<W: Sink + Drop>(
        &self,
        files: Files<'_>,
        printer: &mut Printer<W>,
    ) -> Result<(), WriteFault>
        ensures { Prints W.Sink result printer.old printer.new
            (listed_heading printer.old.form files.entry (listing self.now)) false }
    {
        self.print_area_heading(files, printer)?;
        list_hashed(printer, &self.findings, &self.digests)?;
        printer.next_array("rows")
    }

    /// Prints the part before the rows.
    fn print_heading<W: Sink + Drop>(
        &self,
        request: Request<'_>,
        printer: &mut Printer<W>,
    ) -> Result<(), WriteFault>
        ensures { Prints W.Sink result printer.old printer.new
            (heading printer.old.form request.entry.files (listed request.entry self.now)) false }
    {
        if request.asked.lists {
            self.print_listed_heading(request.files, printer)
        } else {
            printer.start(request.files, "rows")
        }
    }

    /// Writes the report in the form of the request, row by row. Returns the sink, and whether a
    /// row is bad, or a fault: `Output` only if the sink failed, `Memory` if an allocation failed.
    /// After a fault, the sink received a proper prefix of the report.
    pub fn write<W: Sink + Drop>(
        &self,
        alloc: Global,
        request: Request<'_>,
        out: W,
    ) -> WrittenReport<W>
        ensures bad { Returns result.is_bad (has_bad (inspection_rows request.entry self.now)) }
        ensures text { OnOk result.is_bad (Appends (W.contents out) (W.contents result.out)
            (report request.entry self.now)) }
        ensures part { OnErr result.is_bad (AppendsPart (W.contents out) (W.contents result.out)
            (report request.entry self.now)) }
        ensures cause { W.faults out + fault_count by_sink result.is_bad ≤ W.faults result.out }
    {
        match request.form {
            Form::Text => self.write_lines(alloc, LineForm::Text, request, out),
            Form::Json => self.write_lines(alloc, LineForm::Json, request, out),
            Form::Terminal(colours) => self.write_tables(alloc, colours, request, out),
        }
    }

    /// Writes the report line by line, after the list on request.
    fn write_lines<W: Sink + Drop>(
        &self,
        alloc: Global,
        form: LineForm,
        request: Request<'_>,
        out: W,
    ) -> WrittenReport<W>
        ensures bad { Returns result.is_bad (has_bad (inspection_rows request.entry self.now)) }
        ensures text { OnOk result.is_bad (Appends (W.contents out) (W.contents result.out)
            (lines_report form request.entry self.now)) }
        ensures part { OnErr result.is_bad (AppendsPart (W.contents out) (W.contents result.out)
            (lines_report form request.entry self.now)) }
        ensures cause { W.faults out + fault_count by_sink result.is_bad ≤ W.faults result.out }
    {
        let mut printer = Printer::new(alloc, form, out);
        if let Err(fault) = self.print_heading(request, &mut printer) {
            return WrittenReport {
                out: printer.out,
                is_bad: Err(fault),
            };
        }
        let mut rows = RowWriter::new(alloc, printer, request.asked.is_verbose);
        let is_bad = match self.add_rows(alloc, request, &mut rows) {
            Ok(()) => rows.finish(request.subject()),
            Err(fault) => Err(fault),
        };
        WrittenReport {
            out: rows.into_inner(),
            is_bad,
        }
    }
}
