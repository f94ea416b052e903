//! Rows of the structures that a board boots from.
ghost use Rattle.std.specs.Prelude.{◌≡◌};
ghost use Rattle.check_report.specs.BoardRows.{block_row, block_text, board_row, board_rows, descriptor_row, difference_row, firmware_row, table_fault_row, update_text, place_text, header_row, header_text, key_text, signature_text, signed_text, slot_row, slot_text, table_row, vector_row};
ghost use Rattle.check_report.specs.Effects.{Adds};
ghost use Rattle.check_report.specs.Rows.{seen_row};

use crate::fault::WriteFault;
use crate::rows::{Row, RowWriter, Verdict};
use board_findings::{BoardFinding, HeaderFinding};
use board_structures::{
    AreaDifference, Descriptor, FirmwareTable, Gbb, GbbFault, GbbField, HeaderFault, MasterHeader,
    PartitionTable, ResetVector, SignedSlot, SlotFault, SlotSignature, TableFault, UpdateFault,
};
use flash_device::Sink;

fn descriptor_row<'a>(state: &Descriptor) -> Row<'a>
    ensures { seen_row result ≡ descriptor_row state.now }
{
    let (bad, remark) = (Verdict::Bad, Verdict::Remark);
    match state {
        Descriptor::Blank => remark.row("descriptor-blank", "blank: no flash descriptor"),
        Descriptor::CutOff => {
            let what = "flash descriptor has less than 4096 bytes";
            bad.row("descriptor-invalid", what)
        }
        Descriptor::NoSignature => bad.row("descriptor-invalid", "no flash descriptor"),
        Descriptor::TableOutside => {
            let what = "table of regions ends outside the flash descriptor";
            bad.row("descriptor-invalid", what)
        }
        Descriptor::Described(_) => remark.row("descriptor", "flash descriptor"),
    }
}

fn difference_row<'a>(difference: AreaDifference) -> Row<'a>
    ensures { seen_row result ≡ difference_row difference }
{
    let what = "isn't the region of the flash descriptor";
    let row = Verdict::Bad.row("area-not-region", what);
    let row = row.in_area(difference.region.area_name());
    row.at(u64::from(difference.area.offset))
}

fn table_row<'a>(state: PartitionTable) -> Row<'a>
    ensures { seen_row result ≡ table_row state }
{
    let (bad, remark) = (Verdict::Bad, Verdict::Remark);
    match state {
        PartitionTable::Blank => remark.row(
            "me-table-blank",
            "blank: no partition table of the ME",
        ),
        PartitionTable::Missing => bad.row("me-table-invalid", "no partition table of the ME"),
        PartitionTable::Present { .. } => remark.row("me-table", "partition table of the ME"),
    }
}

fn vector_row<'a>(state: ResetVector) -> Row<'a>
    ensures { seen_row result ≡ vector_row state }
{
    let bad = Verdict::Bad;
    match state {
        ResetVector::CutOff => {
            bad.row(
                "reset-vector-invalid",
                "image is too short for a reset vector",
            )
        }
        ResetVector::Erased => bad.row("reset-vector-invalid", "reset vector is erased"),
        ResetVector::Cleared => bad.row("reset-vector-invalid", "reset vector is cleared"),
        ResetVector::Code => Verdict::Remark.row("reset-vector", "reset vector"),
    }
}

fn header_text(fault: HeaderFault) -> &'static str
    ensures { result.now ≡ header_text fault }
{
    match fault {
        HeaderFault::CutOff => "master header ends outside COREBOOT",
        HeaderFault::NoMagic => "no master header",
        HeaderFault::Version(_) => "master header has another version than 1112",
        HeaderFault::Start(_) => "master header states another start of COREBOOT",
        HeaderFault::End(_) => "master header states another end of COREBOOT",
        HeaderFault::Alignment(_) => "master header has another alignment than 64",
        HeaderFault::Pointer(_) => "last four bytes of COREBOOT don't point to the master header",
    }
}

fn header_row<'a>(header: HeaderFinding) -> Row<'a>
    ensures { seen_row result ≡ header_row header }
{
    match header.state {
        MasterHeader::Broken(fault) => {
            let verdict = Verdict::of_finding(header.ends_with_bootblock);
            verdict.row("master-header-invalid", header_text(fault))
        }
        MasterHeader::Sound => Verdict::Remark.row("master-header", "master header"),
    }
}

fn update_text(fault: UpdateFault) -> &'static str
    ensures { result.now ≡ update_text fault }
{
    match fault {
        UpdateFault::Misaligned => "microcode is at no multiple of 16",
        UpdateFault::Unmapped => "microcode lies outside the image",
        UpdateFault::CutOff => "microcode ends outside the image",
        UpdateFault::Version(_) => "microcode has another version than 1",
        UpdateFault::Length(_) => "microcode has a wrong length",
        UpdateFault::Sum => "microcode has another sum than 0",
    }
}

fn table_fault_row<'a>(fault: TableFault) -> Row<'a>
    ensures { seen_row result ≡ table_fault_row fault }
{
    let (bad, code) = (Verdict::Bad, "firmware-table-invalid");
    match fault {
        TableFault::Empty => bad.row(code, "firmware interface table has no entries"),
        TableFault::CutOff => bad.row(code, "firmware interface table ends outside the image"),
        TableFault::Entry(entry) => {
            let row = bad.row(code, update_text(entry.fault));
            row.number(u64::from(entry.number))
        }
    }
}

fn firmware_row<'a>(state: FirmwareTable) -> Row<'a>
    ensures { seen_row result ≡ firmware_row state }
{
    let (remark, code) = (Verdict::Remark, "firmware-table");
    match state {
        FirmwareTable::Absent => remark.row(code, "no firmware interface table"),
        FirmwareTable::Broken(fault) => table_fault_row(fault),
        FirmwareTable::Sound(_) => remark.row(code, "firmware interface table"),
    }
}

fn place_text(field: GbbField) -> &'static str
    ensures { result.now ≡ place_text field }
{
    match field {
        GbbField::HardwareId => "hardware id lies outside the GBB",
        GbbField::RootKey => "root key lies outside the GBB",
        GbbField::Bitmap => "bitmaps lie outside the GBB",
        GbbField::RecoveryKey => "recovery key lies outside the GBB",
    }
}

fn key_text(field: GbbField) -> &'static str
    ensures { result.now ≡ key_text field }
{
    match field {
        GbbField::HardwareId => "no usable key",
        GbbField::RootKey => "no usable root key",
        GbbField::Bitmap => "no usable key",
        GbbField::RecoveryKey => "no usable recovery key",
    }
}

fn block_text(fault: GbbFault) -> &'static str
    ensures { result.now ≡ block_text fault }
{
    match fault {
        GbbFault::CutOff => "GBB has less than 128 bytes",
        GbbFault::NoSignature => "no GBB",
        GbbFault::MajorVersion(_) => "GBB has another major version than 1",
        GbbFault::HeaderLength(_) => "GBB has another header length than 128",
        GbbFault::FieldOutside(field) => place_text(field),
        GbbFault::NoTerminator => "hardware id has no end",
        GbbFault::HardwareIdDigest => "hardware id has another digest",
        GbbFault::Key(key) => key_text(key.field),
    }
}

fn block_row<'a>(state: Gbb) -> Row<'a>
    ensures { seen_row result ≡ block_row state }
{
    let remark = Verdict::Remark;
    match state {
        Gbb::Blank => remark.row("gbb-blank", "blank: no GBB"),
        Gbb::Broken(fault) => Verdict::Bad.row("gbb-invalid", block_text(fault)),
        Gbb::Sound(0) => remark.row("gbb", "GBB"),
        Gbb::Sound(flags) => {
            let row = remark.row("gbb-flags", "flags weaken the verification");
            row.number(u64::from(flags))
        }
    }
}

fn signature_text(signature: SlotSignature) -> &'static str
    ensures { result.now ≡ signature_text signature }
{
    match signature {
        SlotSignature::Keyblock => "signature of the keyblock lies outside it",
        SlotSignature::Checksum => "checksum of the keyblock lies outside it",
        SlotSignature::Preamble => "signature of the preamble lies outside it",
        SlotSignature::Body => "signature of the body lies outside the preamble",
    }
}

fn signed_text(signature: SlotSignature) -> &'static str
    ensures { result.now ≡ signed_text signature }
{
    match signature {
        SlotSignature::Keyblock => "signed bytes of the keyblock end outside it",
        SlotSignature::Checksum => "bytes under the checksum end outside the keyblock",
        SlotSignature::Preamble => "signed bytes of the preamble end outside it",
        SlotSignature::Body => "signed bytes of the body end outside it",
    }
}

fn slot_text(fault: SlotFault) -> &'static str
    ensures { result.now ≡ slot_text fault }
{
    match fault {
        SlotFault::CutOff => "keyblock has less than 112 bytes",
        SlotFault::NoMagic => "no keyblock",
        SlotFault::KeyblockVersion(_) => "keyblock has another major version than 2",
        SlotFault::KeyblockLength(_) => "keyblock has a wrong length",
        SlotFault::SignatureOutside(signature) => signature_text(signature),
        SlotFault::SignedOutside(signature) => signed_text(signature),
        SlotFault::ChecksumLength(_) => "checksum of the keyblock hasn't 64 bytes",
        SlotFault::TooLong(_) => "checksum covers more than 4096 bytes",
        SlotFault::DataKey(_) => "no usable data key",
        SlotFault::Checksum => "keyblock has another checksum",
        SlotFault::PreambleCutOff => "no preamble",
        SlotFault::PreambleVersion(_) => "preamble has another major version than 2",
        SlotFault::PreambleLength(_) => "preamble has a wrong length",
        SlotFault::BodyShort(_) => "components aren't signed: sign the slot again",
        SlotFault::BodyLong(_) => "signed bytes end outside the slot: sign the slot again",
    }
}

fn slot_row<'a>(state: SignedSlot) -> Row<'a>
    ensures { seen_row result ≡ slot_row state }
{
    let remark = Verdict::Remark;
    match state {
        SignedSlot::Blank => remark.row("slot-blank", "blank: no signatures"),
        SignedSlot::Broken(fault) => Verdict::Bad.row("slot-invalid", slot_text(fault)),
        SignedSlot::BodyNotChecked => {
            let what = "body isn't checked: no length is signed";
            remark.row("slot-not-checked", what)
        }
        SignedSlot::Sound(_) => remark.row("slot", "signed slot"),
    }
}

/// Returns the row of a finding about a structure of the board.
fn board_row<'a>(finding: &BoardFinding) -> Row<'a>
    ensures { seen_row result ≡ board_row finding.now }
{
    match finding {
        BoardFinding::Descriptor(state) => descriptor_row(state).in_area(b"SI_DESC"),
        BoardFinding::Region(difference) => difference_row(*difference),
        BoardFinding::PartitionTable(state) => table_row(*state).in_area(b"SI_ME"),
        BoardFinding::ResetVector(state) => vector_row(*state).in_area(b"COREBOOT"),
        BoardFinding::FirmwareTable(state) => firmware_row(*state).in_area(b"COREBOOT"),
        BoardFinding::MasterHeader(header) => header_row(*header).in_area(b"COREBOOT"),
        BoardFinding::Gbb(state) => block_row(*state).in_area(b"GBB"),
        BoardFinding::Slot(slot) => slot_row(slot.state).in_area(slot.slot.block_name()),
    }
}

/// Adds the rows of the structures that a board boots from, in order. Returns `Output` if the sink
/// failed, and `Memory` if an allocation failed.
pub fn add_board<W: Sink + Drop>(
    rows: &mut RowWriter<W>,
    findings: &[BoardFinding],
) -> Result<(), WriteFault>
    ensures { Adds W.Sink result rows.old rows.new (board_rows findings.now) }
{
    for finding in findings {
        rows.add(board_row(finding))?;
    }
    Ok(())
}
