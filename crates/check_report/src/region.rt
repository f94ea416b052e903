//! Rows of a region's findings.
ghost use Rattle.std.specs.Prelude.{◌≡◌, option_map};
ghost use Rattle.check_report.specs.Rows.{seen_row};
ghost use Rattle.check_report.specs.Effects.{Adds};
ghost use Rattle.check_report.specs.FindingRows.{component_rows, damage_text, has_hash_row};
ghost use Rattle.check_report.specs.FindingRows.{hash_rows, hash_words, plain_row, region_rows};

use crate::attributes::add_attributes;
use crate::fault::WriteFault;
use crate::request::Asked;
use crate::rows::{Row, RowWriter, Verdict};
use check_findings::{Content, HashFinding, HashRules, RegionFinding, has_long_metadata, is_text};
use flash_device::Sink;
use flash_format::{Algorithm, DamageKind, type_name};

/// Returns the code and the text of a digest.
pub fn hash_words(hash: HashFinding) -> (&'static str, &'static str)
    ensures { (result.0.now, result.1.now) ≡ hash_words hash }
{
    match hash {
        HashFinding::Missing => ("hash-missing", "no hash"),
        HashFinding::Valid(Algorithm::Sha256) => ("hash-valid", "sha256 valid"),
        HashFinding::Valid(Algorithm::Sha512) => ("hash-valid", "sha512 valid"),
        HashFinding::Invalid(Algorithm::Sha256) => ("hash-invalid", "sha256 invalid"),
        HashFinding::Invalid(Algorithm::Sha512) => ("hash-invalid", "sha512 invalid"),
        HashFinding::Unsupported => ("hash-unsupported", "hash unsupported"),
    }
}

impl Asked {
    /// Returns whether a digest has a row. A missing digest has a row only if it is needed, or on
    /// request.
    fn has_hash_row(self, rules: HashRules, content: Content) -> bool
        ensures { result ≡ has_hash_row self rules content }
    {
        !matches!(content.hash, HashFinding::Missing) || self.is_verbose || rules.need(content)
    }
}

/// Adds up to two rows of a component's digest: its state, and another algorithm than the
/// anchor's.
fn add_hash<W: Sink + Drop>(
    rows: &mut RowWriter<W>,
    asked: Asked,
    rules: HashRules,
    region: &[u8],
    at: u64,
    name: &[u8],
    content: Content,
) -> Result<(), WriteFault>
    ensures { Adds W.Sink result rows.old rows.new
        (hash_rows asked rules region.now at name.now content) }
{
    let (code, what) = hash_words(content.hash);
    let verdict = Verdict::of_finding(rules.is_bad(name, content));
    let row = verdict.row(code, what).at_component(region, at, name);
    rows.add_if(asked.has_hash_row(rules, content), row)?;
    let row = Verdict::Remark.row(
        "hash-other-algorithm",
        "hash isn't of the anchor's algorithm",
    );
    rows.add_if(rules.differ(content), row.at_component(region, at, name))
}

/// Adds the rows of a component: up to four of its name, metadata and type, those of its digest,
/// and the fault of its attributes.
fn add_component<W: Sink + Drop>(
    rows: &mut RowWriter<W>,
    asked: Asked,
    rules: HashRules,
    region: &[u8],
    finding: &RegionFinding,
) -> Result<(), WriteFault>
    ensures { Adds W.Sink result rows.old rows.new
        (component_rows asked rules region.now finding.now) }
{
    let RegionFinding::Component {
        at,
        name,
        is_shadowed,
        content,
    } = finding
    else {
        return Ok(());
    };
    let (at, name) = (*at, name.as_slice());
    let row = Verdict::Bad.row("component-shadowed", "has the name of an earlier component");
    rows.add_if(*is_shadowed, row.at_component(region, at, name))?;
    let what = "metadata longer than 256 bytes: firmware can't find it";
    let row = Verdict::Bad.row("metadata-too-long", what);
    rows.add_if(
        has_long_metadata(at, *content),
        row.at_component(region, at, name),
    )?;
    let row = Verdict::Remark.row("component-name", "name isn't UTF-8");
    rows.add_if(!is_text(name), row.at_component(region, at, name))?;
    let row = Verdict::Remark.row("component-type", "type without a name");
    let row = row.number(u64::from(content.kind));
    let is_nameless = type_name(content.kind).is_none();
    rows.add_if(is_nameless, row.at_component(region, at, name))?;
    add_hash(rows, asked, rules, region, at, name, *content)?;
    add_attributes(rows, region, at, name, content.fault)
}

fn damage_text(kind: DamageKind) -> &'static str
    ensures { result.now ≡ damage_text kind }
{
    match kind {
        DamageKind::Offset => "damaged entry: offset",
        DamageKind::AttrOffset => "damaged entry: attributes",
        DamageKind::Extent => "damaged entry: extent",
        DamageKind::Name => "damaged entry: name",
        DamageKind::AttrLength => "damaged entry: attribute length",
    }
}

/// Returns the row of a finding that isn't a component.
fn plain_row<'a>(finding: &RegionFinding) -> Option<Row<'a>>
    ensures { option_map seen_row result ≡ plain_row finding.now }
{
    let (bad, remark) = (Verdict::Bad, Verdict::Remark);
    let row = match finding {
        RegionFinding::Component { .. } => return None,
        RegionFinding::BadSize => bad.row("region-size", "size is less than 64"),
        RegionFinding::UnalignedSize => remark.row("region-unaligned", "size is no multiple of 64"),
        RegionFinding::NotCbfs => bad.row("no-cbfs", "no CBFS"),
        RegionFinding::Deleted { at } => {
            remark.row("component-deleted", "deleted component").at(*at)
        }
        RegionFinding::Complete => remark.row("complete", "complete"),
        RegionFinding::Tail { at } => remark.row("tail", "unused tail").at(*at),
        RegionFinding::TailFilled { at } => {
            let what = "unused tail has other bytes than 0xff and 0x00";
            bad.row("tail-bytes", what).at(*at)
        }
        RegionFinding::TailEntry { at } => {
            bad.row("tail-entry", "entry in the unused tail").at(*at)
        }
        RegionFinding::Damaged { at, kind } => {
            bad.row("entry-damaged", damage_text(*kind)).at(*at)
        }
        RegionFinding::Components(0) => remark.row("no-components", "no components"),
        RegionFinding::Components(n) => remark.row("components", "components").count(*n),
        RegionFinding::FreeBytes(n) => remark.row("free-bytes", "free bytes").count(*n),
        RegionFinding::LargestContent(Some(n)) => {
            let what = "largest content that add takes";
            remark.row("largest-content", what).count(*n)
        }
        RegionFinding::LargestContent(None) => remark.row("no-room", "no room for a component"),
    };
    Some(row)
}

/// Adds the rows of an area's findings, in order. Positions count from the start of the area, in
/// bytes. Returns `Output` if the sink failed, and `Memory` if an allocation failed.
pub fn add_region<W: Sink + Drop>(
    rows: &mut RowWriter<W>,
    asked: Asked,
    rules: HashRules,
    region: &[u8],
    findings: &[RegionFinding],
) -> Result<(), WriteFault>
    ensures { Adds W.Sink result rows.old rows.new
        (region_rows asked rules region.now findings.now) }
{
    for finding in findings {
        match plain_row(finding) {
            Some(row) => rows.add(row.in_area(region))?,
            None => add_component(rows, asked, rules, region, finding)?,
        }
    }
    Ok(())
}
