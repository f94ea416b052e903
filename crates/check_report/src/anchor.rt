//! Rows of an anchor.
ghost use Rattle.std.specs.Prelude.{◌≡◌};
ghost use Rattle.check_report.specs.AnchorRows.{anchor_row, at_spot, in_bootblock, map_row};
ghost use Rattle.check_report.specs.AnchorRows.{map_text, metadata_row, metadata_text};
ghost use Rattle.check_report.specs.Rows.{seen_row};

use crate::rows::{Row, Verdict};
use cbfs_anchor::Algorithm;
use check_findings::{AnchorFinding, AnchorSpot, Bootblock};

fn metadata_text(algorithm: Algorithm, is_valid: bool) -> &'static str
    ensures { result.now ≡ metadata_text algorithm is_valid }
{
    match (algorithm, is_valid) {
        (Algorithm::Sha1, true) => "metadata hash sha1 valid",
        (Algorithm::Sha256, true) => "metadata hash sha256 valid",
        (Algorithm::Sha512, true) => "metadata hash sha512 valid",
        (Algorithm::Sha224, true) => "metadata hash sha224 valid",
        (Algorithm::Sha384, true) => "metadata hash sha384 valid",
        (Algorithm::Sha1, false) => "metadata hash sha1 invalid: run cbfsseal IMAGE",
        (Algorithm::Sha256, false) => "metadata hash sha256 invalid: run cbfsseal IMAGE",
        (Algorithm::Sha512, false) => "metadata hash sha512 invalid: run cbfsseal IMAGE",
        (Algorithm::Sha224, false) => "metadata hash sha224 invalid: run cbfsseal IMAGE",
        (Algorithm::Sha384, false) => "metadata hash sha384 invalid: run cbfsseal IMAGE",
    }
}

fn map_text(algorithm: Algorithm, is_valid: bool) -> &'static str
    ensures { result.now ≡ map_text algorithm is_valid }
{
    match (algorithm, is_valid) {
        (Algorithm::Sha1, true) => "map hash sha1 valid",
        (Algorithm::Sha256, true) => "map hash sha256 valid",
        (Algorithm::Sha512, true) => "map hash sha512 valid",
        (Algorithm::Sha224, true) => "map hash sha224 valid",
        (Algorithm::Sha384, true) => "map hash sha384 valid",
        (Algorithm::Sha1, false) => "map hash sha1 invalid: run cbfsseal IMAGE",
        (Algorithm::Sha256, false) => "map hash sha256 invalid: run cbfsseal IMAGE",
        (Algorithm::Sha512, false) => "map hash sha512 invalid: run cbfsseal IMAGE",
        (Algorithm::Sha224, false) => "map hash sha224 invalid: run cbfsseal IMAGE",
        (Algorithm::Sha384, false) => "map hash sha384 invalid: run cbfsseal IMAGE",
    }
}

fn metadata_row<'a>(algorithm: Algorithm, is_valid: bool) -> Row<'a>
    ensures { seen_row result ≡ metadata_row algorithm is_valid }
{
    let text = metadata_text(algorithm, is_valid);
    if is_valid {
        Verdict::Remark.row("metadata-hash-valid", text)
    } else {
        Verdict::Bad.row("metadata-hash-invalid", text)
    }
}

fn map_row<'a>(algorithm: Algorithm, is_valid: bool) -> Row<'a>
    ensures { seen_row result ≡ map_row algorithm is_valid }
{
    let text = map_text(algorithm, is_valid);
    if is_valid {
        Verdict::Remark.row("map-hash-valid", text)
    } else {
        Verdict::Bad.row("map-hash-invalid", text)
    }
}

impl<'a> Row<'a> {
    /// Sets the area BOOTBLOCK, or the component `bootblock` of COREBOOT.
    fn in_bootblock(self, bootblock: Bootblock) -> Row<'a>
        ensures { seen_row result ≡ in_bootblock bootblock (seen_row self.entry) }
    {
        match bootblock {
            Bootblock::Area => self.in_area(b"BOOTBLOCK"),
            Bootblock::Component => self.of_component(b"COREBOOT", b"bootblock"),
        }
    }

    fn at_spot(self, spot: AnchorSpot) -> Row<'a>
        ensures { seen_row result ≡ at_spot spot (seen_row self.entry) }
    {
        self.in_bootblock(spot.bootblock).at(spot.at)
    }
}

/// Returns the row of a finding of the anchor.
pub fn anchor_row<'a>(finding: &AnchorFinding) -> Row<'a>
    ensures { seen_row result ≡ anchor_row finding.now }
{
    let bad = Verdict::Bad;
    match finding {
        AnchorFinding::Metadata {
            spot,
            algorithm,
            is_valid,
        } => metadata_row(*algorithm, *is_valid).at_spot(*spot),
        AnchorFinding::FlashMap {
            spot,
            algorithm,
            is_valid,
        } => map_row(*algorithm, *is_valid).at_spot(*spot),
        AnchorFinding::NotChecked(spot) => {
            let row = bad.row(
                "anchor-not-checked",
                "anchor isn't checked: COREBOOT is damaged",
            );
            row.at_spot(*spot)
        }
        AnchorFinding::UnknownAlgorithm(bootblock) => {
            let row = bad.row(
                "anchor-unknown-algorithm",
                "anchor with an unknown algorithm",
            );
            row.in_bootblock(*bootblock)
        }
        AnchorFinding::CutOff(bootblock) => {
            let row = bad.row("anchor-cut-off", "anchor is cut off");
            row.in_bootblock(*bootblock)
        }
    }
}
