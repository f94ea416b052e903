//! The list of components.
ghost use Rattle.std.specs.Prelude.{◌≡◌, ◌++◌, ◌∷◌, [], IfOk, OnOk, drop, length, map};
ghost use Rattle.std.specs.Prelude.{option_copied, string_bytes};
ghost use Rattle.std.specs.List.{flat_map};
ghost use Rattle.std.specs.Option.{option_map, option_map_or};
ghost use Rattle.hex.specs.Hex.{encode_lower};
ghost use Rattle.flash_format.specs.Made.{digest_bytes};
ghost use Rattle.check_report.specs.Reports.{ListedComponent, component_fields, component_lines};
ghost use Rattle.check_report.specs.Reports.{components_in};
ghost use Rattle.check_report.specs.Reports.{hashed_line, hashed_lines, listed_components};
ghost use Rattle.check_report.specs.Reports.{listed_in, listed_of};
ghost use Rattle.check_report.specs.declared.rows.field.Value.TheVariants.{Dash};
ghost use Rattle.check_report.specs.Fields.{field, seen_field, seen_value, text_value};
ghost use Rattle.check_report.specs.Effects.{PrintsLines};

use crate::fault::WriteFault;
use crate::region::hash_words;
use crate::rows::{Field, Printer, Value};
use check_digests::ComponentDigests;
use check_findings::{Content, ImageFinding, RegionFinding};
use flash_device::Sink;
use flash_format::{compression_name, type_name};
use std::alloc::{AllocError, Global};

fn component_fields<'a>(area: &'a [u8], at: u64, name: &'a [u8], content: Content) -> [Field<'a>; 8]
    ensures { map seen_field result ≡ component_fields
        (record { area = area.now; at = at; name = name.now; content = content }) }
{
    let compression = compression_name(content.compression);
    [
        ("area", Value::Name(area)),
        ("component", Value::Name(name)),
        ("position", Value::Offset(at)),
        (
            "type",
            Value::name_or(type_name(content.kind), content.kind),
        ),
        ("length", Value::Count(u64::from(content.len))),
        (
            "compression",
            Value::name_or(compression, content.compression),
        ),
        ("hash", Value::Text(hash_words(content.hash).1)),
        ("content", Value::Offset(content.start)),
    ]
}

fn list_area<W: Sink + Drop>(
    printer: &mut Printer<W>,
    area: &[u8],
    findings: &[RegionFinding],
) -> Result<(), WriteFault>
    ensures { PrintsLines W.Sink result printer.old printer.new
        (flat_map (component_lines area.now) findings.now) }
{
    for finding in findings {
        if let RegionFinding::Component {
            at,
            name,
            content,
            ..
        } = finding
        {
            let fields = component_fields(area, *at, name.as_slice(), *content);
            printer.line("component", &fields)?;
        }
    }
    Ok(())
}

/// Prints the components of the checked areas without digests, in the order of findings.
pub fn list_components<W: Sink + Drop>(
    printer: &mut Printer<W>,
    findings: &[ImageFinding],
) -> Result<(), WriteFault>
    ensures { PrintsLines W.Sink result printer.old printer.new
        (flat_map components_in findings.now) }
{
    for finding in findings {
        if let ImageFinding::Region { area, findings, .. } = finding {
            list_area(printer, area.area.text(), findings.as_slice())?;
        }
    }
    Ok(())
}

/// Returns the digits of the stored digest, if there is one.
fn stored_digits(alloc: Global, digests: &ComponentDigests) -> Result<Option<String>, AllocError>
    ensures { IfOk result (λ digits. option_map (λ text. string_bytes text) digits
        ≡ option_map (λ stored. encode_lower (digest_bytes stored)) digests.now.stored) }
{
    match digests.stored() {
        Some(digest) => Ok(Some(hex::encode(alloc, digest.bytes())?)),
        None => Ok(None),
    }
}

fn text_or_dash(text: Option<&str>) -> Value<'_>
    ensures { seen_value result
        ≡ option_map_or text_value (option_copied text.entry) (seen_value Dash) }
{
    match text {
        Some(text) => Value::Text(text),
        None => Value::Dash,
    }
}

/// Returns the fields of a component, and the digits of its digests.
fn hashed_fields<'a>(
    area: &'a [u8],
    at: u64,
    name: &'a [u8],
    content: Content,
    stored: Option<&'a str>,
    sha256: &'a str,
) -> [Field<'a>; 10]
    ensures { map seen_field result ≡ component_fields
        (record { area = area.now; at = at; name = name.now; content = content })
        ++ field "stored" (option_map_or text_value (option_copied stored.entry) (seen_value Dash))
        ∷ field "sha256" (text_value sha256.now) ∷ [] }
{
    let [
        area,
        component,
        position,
        kind,
        length,
        compression,
        hash,
        content,
    ] = component_fields(area, at, name, content);
    [
        area,
        component,
        position,
        kind,
        length,
        compression,
        hash,
        content,
        ("stored", text_or_dash(stored)),
        ("sha256", Value::Text(sha256)),
    ]
}

/// Prints the line of a component with its digests.
fn print_hashed<W: Sink + Drop>(
    printer: &mut Printer<W>,
    area: &[u8],
    at: u64,
    name: &[u8],
    content: Content,
    digests: &ComponentDigests,
) -> Result<(), WriteFault>
    ensures { let component : ListedComponent =
        record { area = area.now; at = at; name = name.now; content = content } in
        PrintsLines W.Sink result printer.old printer.new
        (hashed_line (component, digests.now) ∷ []) }
{
    let stored = stored_digits(printer.alloc, digests)?;
    let sha256 = hex::encode(printer.alloc, digests.content())?;
    let fields = hashed_fields(area, at, name, content, stored.as_deref(), &sha256);
    printer.line("component", &fields)
}

/// Prints a component with the first digests, which are removed from the list.
fn list_hashed_finding<W: Sink + Drop>(
    printer: &mut Printer<W>,
    area: &[u8],
    finding: &RegionFinding,
    digests: &mut &[ComponentDigests],
) -> Result<(), WriteFault>
    ensures lines { PrintsLines W.Sink result printer.old printer.new
        (hashed_lines (listed_in area.now finding.now) digests.old.now) }
    ensures rest { OnOk result
        (digests.new.now ≡ drop (length (listed_in area.now finding.now)) digests.old.now) }
{
    let RegionFinding::Component {
        at,
        name,
        content,
        ..
    } = finding
    else {
        return Ok(());
    };
    let Some((first, rest)) = digests.split_first() else {
        return Ok(());
    };
    print_hashed(printer, area, *at, name.as_slice(), *content, first)?;
    *digests = rest;
    Ok(())
}

/// Prints the components of an area with the first digests, which are removed from the list.
fn list_hashed_area<W: Sink + Drop>(
    printer: &mut Printer<W>,
    area: &[u8],
    findings: &[RegionFinding],
    digests: &mut &[ComponentDigests],
) -> Result<(), WriteFault>
    ensures lines { PrintsLines W.Sink result printer.old printer.new
        (hashed_lines (flat_map (listed_in area.now) findings.now) digests.old.now) }
    ensures rest { OnOk result (digests.new.now
        ≡ drop (length (flat_map (listed_in area.now) findings.now)) digests.old.now) }
{
    for finding in findings {
        list_hashed_finding(printer, area, finding, digests)?;
    }
    Ok(())
}

/// Prints the components of a finding's area with the first digests, which are removed from the
/// list.
fn list_hashed_region<W: Sink + Drop>(
    printer: &mut Printer<W>,
    finding: &ImageFinding,
    digests: &mut &[ComponentDigests],
) -> Result<(), WriteFault>
    ensures lines { PrintsLines W.Sink result printer.old printer.new
        (hashed_lines (listed_of finding.now) digests.old.now) }
    ensures rest { OnOk result
        (digests.new.now ≡ drop (length (listed_of finding.now)) digests.old.now) }
{
    match finding {
        ImageFinding::Region { area, findings, .. } => {
            list_hashed_area(printer, area.area.text(), findings.as_slice(), digests)
        }
        _ => Ok(()),
    }
}

/// Prints the components of the checked areas with their digests, in the order of findings.
pub fn list_hashed<W: Sink + Drop>(
    printer: &mut Printer<W>,
    findings: &[ImageFinding],
    digests: &[ComponentDigests],
) -> Result<(), WriteFault>
    ensures { PrintsLines W.Sink result printer.old printer.new
        (hashed_lines (listed_components findings.now) digests.now) }
{
    let mut left = digests;
    for finding in findings {
        list_hashed_region(printer, finding, &mut left)?;
    }
    Ok(())
}
