//! Bad findings.
use crate::support::equal;
use check_findings::{Content, HashFinding, HashRules};

#[test]
fn findings_that_are_bad(rt: HostRuntime) {
    let content = Content {
        start: 28,
        kind: 0x50,
        len: 1,
        compression: 0,
        hash: HashFinding::Missing,
        stored: None,
        fault: None,
    };
    let rules = HashRules {
        needs_all: true,
        anchor: None,
    };
    equal(&rt, &rules.is_bad(b"a", content), &true);
    let bootblock = Content { kind: 1, ..content };
    equal(&rt, &rules.is_bad(b"a", bootblock), &false);
    let rules = HashRules {
        needs_all: false,
        anchor: None,
    };
    equal(&rt, &rules.is_bad(b"a", content), &false);
}
