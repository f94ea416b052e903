//! A small image, and helpers for reports.
use crate::report::reports::request;
use crate::support::{Failing, equal, failing};
use check_findings::ImageFinding;
use check_report::{Form, Inspection, Request, WrittenReport};
use flash_device::WriteSink;
use std::hash::RandomState;
use std::process::Abort;
use std::random::RandomSource;

/// The map of 8192 bytes: FMAP, `A` and `B`, of 256 bytes each. `B` begins after the first piece.
pub const MAP: [u8; 182] =
    *b"__FMAP__\x01\x01\0\0\0\0\0\0\0\0\0\x20\0\0FLASH\0\0\0\0\0\0\0\0\0\0\0\0\0\0\0\0\0\0\0\0\0\
    \0\0\0\0\0\0\x03\0\
    \0\0\0\0\0\x01\0\0FMAP\0\0\0\0\0\0\0\0\0\0\0\0\0\0\0\0\0\0\0\0\0\0\0\0\0\0\0\0\0\0\
    \0\x01\0\0\0\x01\0\0A\0\0\0\0\0\0\0\0\0\0\0\0\0\0\0\0\0\0\0\0\0\0\0\0\0\0\0\0\0\0\0\0\0\
    \0\x14\0\0\0\x01\0\0B\0\0\0\0\0\0\0\0\0\0\0\0\0\0\0\0\0\0\0\0\0\0\0\0\0\0\0\0\0\0\0\0\0";

/// The component `a`.
pub const ONE: [u8; 50] =
    *b"LARCHIVE\0\0\0\x0a\0\0\0\x50\0\0\0\0\0\0\0\x28a\0\0\0\0\0\0\0\0\0\0\0\0\0\0\x000123456789";

pub fn image(rt: &(impl Abort + AllocGlobal), component: &[u8], calls: u64) -> Failing {
    failing(rt, 8192, &[(0, &MAP), (256, component)], calls)
}

/// Counts the entries, and drops them once for all callers.
pub fn count<T: Drop, E: Copy>(told: Result<Vec<T>, E>) -> Result<usize, E> {
    match told {
        Ok(told) => Ok(told.len()),
        Err(fault) => Err(fault),
    }
}

pub fn keys(rt: &(impl Abort + RandomSource)) -> RandomState {
    RandomState::new(rt).expect(rt, "random numbers")
}

pub fn text_of(
    rt: &(impl Abort + AllocGlobal),
    form: Form,
    findings: Vec<ImageFinding>,
    areas: &[&[u8]],
) -> Vec<u8> {
    let inspection = Inspection {
        areas: Vec::new(rt.alloc()),
        findings,
        board: Vec::new(rt.alloc()),
        digests: Vec::new(rt.alloc()),
        changes: None,
    };
    let request = Request {
        areas,
        ..request(&[], form)
    };
    let sink = WriteSink::new(Vec::new(rt.alloc()));
    let WrittenReport { out, is_bad } = inspection.write(rt.alloc(), request, sink);
    let _ = is_bad.expect(rt, "memory");
    out.into_inner()
}

/// Checks a report without findings.
pub fn prints(rt: &(impl Abort + AllocGlobal), form: Form, expected: &[u8]) {
    let text = text_of(rt, form, Vec::new(rt.alloc()), &[]);
    equal(rt, &text.as_slice(), &expected);
}
