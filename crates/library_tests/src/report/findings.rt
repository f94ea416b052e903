//! Rows of constructed findings.
use crate::report::support::text_of;
use crate::support::equal;
use check_findings::ImageFinding;
use check_report::{Form, rows_tell_what_is_bad};

// No check reports an index without a name.
#[test]
fn names_that_no_area_has(rt: HostRuntime) {
    rows_tell_what_is_bad();
    let mut findings = Vec::new(rt.alloc());
    findings.push(ImageFinding::NoArea(1)).expect(&rt, "memory");
    findings.push(ImageFinding::NoArea(2)).expect(&rt, "memory");
    let text = text_of(&rt, Form::Text, findings, &[b"COREBOOT", b"RW_A"]);
    let expected: &[u8] = b"bad\tRW_A\t-\t-\tno such area\nbad\t-\t-\t-\tno such area\n\
not sound: 2 bad, 0 remarks, 0 changes\n";
    equal(&rt, &text.as_slice(), &expected);
}
