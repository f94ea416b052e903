//! The text of a report.
ghost use Rattle.std.specs.Prelude.{◌≡◌, ◌+◌, ◌≤◌, length};
ghost use Rattle.hex.specs.Hex.{encode_lower};
ghost use Rattle.arrayvec.specs.ArrayVec.{array_vec_len};
ghost use Rattle.flash_format.specs.Texts.{Pushes};
ghost use Rattle.seal_line.specs.Reports.{digest_line, report_text, state_text};

use arrayvec::ArrayVec;
use cbfs_anchor::{Algorithm, Report};
use flash_format::push_text;

/// The maximum length of two lines with digests of 64 bytes.
pub const REPORT_LEN: usize = 306;

type ReportText = ArrayVec<u8, REPORT_LEN>;

fn state_text(is_valid: bool) -> &'static str
    ensures value { result.now ≡ state_text is_valid }
    ensures short { length result.now ≤ 7 }
{
    if is_valid { "valid" } else { "renewed" }
}

fn push_digest(text: &mut ReportText, digest: &[u8])
    requires short { length digest.now ≤ 64 }
    requires room { array_vec_len text.old + 128 ≤ REPORT_LEN }
    ensures { Pushes text.old (encode_lower digest.now) 128 text.new }
{
    let mut digits = [0; 128];
    let end = 2 * digest.len();
    // The slice has the exact length.
    let _fits = hex::encode_to_slice(digest, &mut digits[..end]);
    push_text(text, &digits[..end]);
}

#[tactic(auto, unfolding(crate::specs::Reports::digest_line))]
fn push_line(text: &mut ReportText, what: &str, algorithm: Algorithm, digest: &[u8], is_valid: bool)
    requires what { length what.now ≡ 8 }
    requires digest { length digest.now ≤ 64 }
    requires room { array_vec_len text.old + 153 ≤ REPORT_LEN }
    ensures { Pushes text.old (digest_line what.now algorithm digest.now is_valid) 153 text.new }
{
    push_text(text, what.as_bytes());
    push_text(text, b" ");
    push_text(text, algorithm.name().as_bytes());
    push_text(text, b" ");
    push_digest(text, digest);
    push_text(text, b" ");
    push_text(text, state_text(is_valid).as_bytes());
    push_text(text, b"\n");
}

/// Returns the lines of `-v`: both digests in hexadecimal, and whether the anchor had them.
pub fn report_text(report: &Report) -> ArrayVec<u8, REPORT_LEN>
    ensures { result.items ≡ report_text report.now }
{
    let algorithm = report.anchor.algorithm;
    let n = algorithm.digest_len();
    let mut text = ArrayVec::new();
    push_line(
        &mut text,
        "metadata",
        algorithm,
        &report.metadata[..n],
        report.metadata_valid,
    );
    push_line(
        &mut text,
        "flashmap",
        algorithm,
        &report.map[..n],
        report.map_valid,
    );
    text
}
