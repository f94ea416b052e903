//! Kinds of rows. A kind is a verdict and a code.
ghost use Rattle.std.specs.Prelude.{◌≡◌, ◌+◌, ◌++◌, ◌∷◌, [], List, count_by, map, IfOk};
ghost use Rattle.check_report.specs.Rows.{SeenRow, counts_of, is_like, is_of, kinds_of};
ghost use Rattle.check_report.specs.Rows.{seen_kind, seen_row};
ghost use Rattle.flash_device.specs.Pages.{Returns};

use crate::rows::row::{Row, Verdict};
use std::alloc::AllocError;

/// A kind, and the number of its rows.
#[derive(Clone, Copy)]
pub struct Kind {
    pub verdict: Verdict,
    pub code: &'static str,
    pub count: u64,
}

/// The numbers of rows by verdict.
#[derive(Clone, Copy)]
pub struct Counts {
    pub bad: u64,
    pub remarks: u64,
    pub changes: u64,
}

/// Returns the next number. A report of 2^64 rows ends as if an allocation failed.
fn next(count: u64) -> Result<u64, AllocError>
    ensures { Returns result (count + 1) }
{
    count.checked_add(1).ok_or(AllocError)
}

fn is_of(kind: &Kind, row: &Row) -> bool
    ensures { result ≡ is_of (seen_kind kind.now) (seen_row row.now) }
{
    kind.verdict.word() == row.verdict.word() && kind.code == row.code
}

/// Counts a row in the table of kinds. Returns the number of earlier rows of its kind, or an error
/// if an allocation failed.
pub fn count_by_kind(kinds: &mut Vec<Kind>, row: &Row) -> Result<u64, AllocError>
    ensures { IfOk result (λ n. (rows : List SeenRow) → map seen_kind kinds.old.items
        ≡ kinds_of rows → (n ≡ count_by (is_like (seen_row row.now)) rows)
        × (map seen_kind kinds.new.items ≡ kinds_of (rows ++ seen_row row.now ∷ []))) }
{
    for i in 0..kinds.len() {
        let kind = kinds[i];
        if is_of(&kind, row) {
            kinds[i].count = next(kind.count)?;
            return Ok(kind.count);
        }
    }
    kinds.push(Kind {
        verdict: row.verdict,
        code: row.code,
        count: 1,
    })?;
    Ok(0)
}

impl Counts {
    /// The numbers before the first row.
    pub const ZERO: Counts = Counts {
        bad: 0,
        remarks: 0,
        changes: 0,
    };

    /// Returns the numbers after another row, or an error above 2^64 - 1 rows.
    pub fn with(mut self, row: &Row) -> Result<Counts, AllocError>
        ensures { IfOk result (λ counts. (rows : List SeenRow) → self ≡ counts_of rows
            → counts ≡ counts_of (rows ++ seen_row row.now ∷ [])) }
    {
        match row.verdict {
            Verdict::Bad => self.bad = next(self.bad)?,
            Verdict::Remark => self.remarks = next(self.remarks)?,
            Verdict::Change => self.changes = next(self.changes)?,
        }
        Ok(self)
    }
}
