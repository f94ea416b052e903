//! Output to writers that fail, accept few bytes, or are interrupted.
use crate::compiler::descriptors::{TABLE, TEXT};
use crate::edit::actions::COREBOOT;
use crate::report::reports::request;
use crate::rows::support::{A_AND_416, PRINT, WITH_A, board};
use crate::support::{device_from, equal, filled, image_with, write_over};
use cbfs_commands::{Command, Refusal};
use check_report::{Files, Form, Inspection, Request, WriteFault, WrittenReport};
use flash_store::{MemSource, Output, Paged, RepeatingSink, put_all};
use fmap_compiler::ReadText;
use std::io::{self, ErrorKind, Write};
use std::process::Abort;

/// The behavior of a writer.
#[derive(Clone, Copy)]
struct Manner {
    /// The maximum number of bytes of a call.
    piece: usize,
    /// The number of interrupted calls before each successful call.
    interruptions: u32,
    /// The number of successful calls before the failure.
    left: u32,
    /// A failed call returns 0 instead of an error.
    is_zero: bool,
    /// All calls after the failed one succeed.
    recovers: bool,
}

const GOOD: Manner = Manner {
    piece: usize::MAX,
    interruptions: 0,
    left: u32::MAX,
    is_zero: false,
    recovers: false,
};

/// A writer that compares its bytes with expected bytes.
#[derive(Drop)]
struct Receiver<'a> {
    rest: &'a [u8],
    manner: Manner,
    interrupted: u32,
    has_failed: bool,
    differs: bool,
}

impl Write for Receiver<'_> {
    fn write(&mut self, buf: &[u8]) -> io::Result<usize> {
        if self.interrupted < self.manner.interruptions {
            self.interrupted += 1;
            return Err(io::Error::from(ErrorKind::Interrupted));
        }
        self.interrupted = 0;
        if self.manner.left == 0 {
            self.has_failed = true;
            if self.manner.recovers {
                self.manner.left = u32::MAX;
            }
            return if self.manner.is_zero {
                Ok(0)
            } else {
                Err(io::Error::from(ErrorKind::StorageFull))
            };
        }
        self.manner.left -= 1;
        let n = buf.len().min(self.manner.piece);
        if !self.rest.starts_with(&buf[..n]) {
            self.differs = true;
        }
        self.rest = self.rest.get(n..).unwrap_or(&[]);
        Ok(n)
    }

    fn flush(&mut self) -> io::Result<()> {
        Ok(())
    }
}

type Buffered<'a> = Output<RepeatingSink<Receiver<'a>>>;

fn output<'a>(
    rt: &impl AllocGlobal,
    text: &'a [u8],
    manner: Manner,
    is_keeping: bool,
) -> Buffered<'a> {
    let sink = RepeatingSink::new(Receiver {
        rest: text,
        manner,
        interrupted: 0,
        has_failed: false,
        differs: false,
    });
    if is_keeping {
        Output::keeping(rt.alloc(), sink)
    } else {
        Output::new(rt.alloc(), sink)
    }
}

/// Flushes the output after an operation. Checks that the operation or the flush fails exactly if
/// the writer has failed, and that the writer received all bytes, or a proper prefix of them if
/// its last call has failed. Returns whether the writer has failed.
fn ends(rt: &impl Abort, is_done: bool, mut out: Buffered) -> bool {
    let is_flushed = out.flush().is_ok();
    let receiver = out.into_inner().writer;
    let has_failed = receiver.has_failed;
    equal(rt, &(is_done && is_flushed), &!has_failed);
    let is_whole = receiver.rest.is_empty();
    equal(
        rt,
        &is_whole,
        &(!has_failed || (receiver.manner.recovers && is_whole)),
    );
    equal(rt, &receiver.differs, &false);
    drop(receiver);
    has_failed
}

// ---- texts at the border of a block

/// Returns bytes with period 251.
fn text(rt: &(impl Abort + AllocGlobal), len: usize) -> Vec<u8> {
    let mut bytes = Vec::from_elem(rt.alloc(), 0u8, len).expect(rt, "memory");
    for (i, byte) in bytes.iter_mut().enumerate() {
        *byte = (i % 251) as u8;
    }
    bytes
}

/// Puts a text in pieces of a length.
fn puts(out: &mut Buffered, bytes: &[u8], len: usize) -> bool {
    for piece in bytes.chunks(len.max(1)) {
        if put_all(out, piece).is_err() {
            return false;
        }
    }
    true
}

/// Checks a text in pieces, and returns whether the writer has failed.
fn passes(
    rt: &(impl Abort + AllocGlobal),
    bytes: &[u8],
    len: usize,
    manner: Manner,
    is_keeping: bool,
) -> bool {
    let mut out = output(rt, bytes, manner, is_keeping);
    let is_done = puts(&mut out, bytes, len);
    ends(rt, is_done, out)
}

/// Checks a text in pieces of several lengths.
fn passes_in_pieces(rt: &(impl Abort + AllocGlobal), bytes: &[u8], manner: Manner) {
    for len in [1, 4096, 65_535, 65_536, 65_537, 200_000] {
        for is_keeping in [false, true] {
            let has_failed = passes(rt, bytes, len, manner, is_keeping);
            equal(rt, &has_failed, &false);
        }
    }
}

fn passes_whole(rt: &(impl Abort + AllocGlobal), len: usize) {
    let bytes = text(rt, len);
    passes_in_pieces(rt, &bytes, GOOD);
    passes_in_pieces(
        rt,
        &bytes,
        Manner {
            piece: 4095,
            ..GOOD
        },
    );
    let interrupted = Manner {
        interruptions: 999,
        ..GOOD
    };
    passes_in_pieces(rt, &bytes, interrupted);
}

#[test]
fn texts_at_the_border_of_a_block(rt: HostRuntime) {
    for len in [0, 1, 65_535, 65_536, 65_537, 131_072] {
        passes_whole(&rt, len);
    }
}

#[test]
fn a_thousand_interruptions_are_a_failure(rt: HostRuntime) {
    let manner = Manner {
        interruptions: 1000,
        ..GOOD
    };
    let mut out = output(&rt, b"abc", manner, true);
    equal(&rt, &put_all(&mut out, b"abc").is_ok(), &true);
    equal(&rt, &out.flush().is_ok(), &false);
    // The bytes are still held, and the next call of the writer succeeds.
    equal(&rt, &out.flush().is_ok(), &true);
    equal(&rt, &out.into_inner().writer.rest.is_empty(), &true);
}

/// Checks a failure at each call of the writer, and returns the number of calls.
fn fails_at_each_call(
    rt: &(impl Abort + AllocGlobal),
    bytes: &[u8],
    manner: Manner,
    is_keeping: bool,
) -> u32 {
    for left in 0..100 {
        let manner = Manner { left, ..manner };
        if !passes(rt, bytes, 1000, manner, is_keeping) {
            return left;
        }
    }
    100
}

#[test]
fn a_failure_at_each_call(rt: HostRuntime) {
    let bytes = text(&rt, 131_073);
    for is_keeping in [false, true] {
        for is_zero in [false, true] {
            let manner = Manner { is_zero, ..GOOD };
            equal(
                &rt,
                &fails_at_each_call(&rt, &bytes, manner, is_keeping),
                &3,
            );
            let short = Manner {
                piece: 10_000,
                recovers: true,
                ..manner
            };
            equal(
                &rt,
                &fails_at_each_call(&rt, &bytes, short, is_keeping),
                &15,
            );
        }
    }
}

// ---- the commands

/// The map of 0x30000 bytes at 0: FMAP, of 0x1000 bytes, and areas of 65,535 to 131,072 bytes.
const SIZES: [u8; 266] =
    *b"__FMAP__\x01\x01\0\0\0\0\0\0\0\0\0\0\x03\0FLASH\0\0\0\0\0\0\0\0\0\0\0\0\0\0\0\0\0\0\0\0\0\
\0\0\0\0\0\0\x05\0\
\0\0\0\0\0\x10\0\0FMAP\0\0\0\0\0\0\0\0\0\0\0\0\0\0\0\0\0\0\0\0\0\0\0\0\0\0\0\0\0\0\
\0\x10\0\0\xff\xff\0\0LESS\0\0\0\0\0\0\0\0\0\0\0\0\0\0\0\0\0\0\0\0\0\0\0\0\0\0\0\0\0\0\
\0\x10\0\0\0\0\x01\0SAME\0\0\0\0\0\0\0\0\0\0\0\0\0\0\0\0\0\0\0\0\0\0\0\0\0\0\0\0\0\0\
\0\x10\0\0\x01\0\x01\0MORE\0\0\0\0\0\0\0\0\0\0\0\0\0\0\0\0\0\0\0\0\0\0\0\0\0\0\0\0\0\0\
\0\x10\0\0\0\0\x02\0TWO\0\0\0\0\0\0\0\0\0\0\0\0\0\0\0\0\0\0\0\0\0\0\0\0\0\0\0\0\0\0\0";

/// Checks a command with a failure at each call of the writer, and returns the number of calls.
fn runs_at_each_call(
    rt: &(impl Abort + AllocGlobal),
    image: &[u8],
    command: &Command,
    expected: &[u8],
    manner: Manner,
) -> u32 {
    for left in 0..100 {
        if !runs_once(rt, image, command, expected, Manner { left, ..manner }) {
            return left;
        }
    }
    100
}

fn runs_once(
    rt: &(impl Abort + AllocGlobal),
    image: &[u8],
    command: &Command,
    expected: &[u8],
    manner: Manner,
) -> bool {
    let image = image.to_vec(rt.alloc()).expect(rt, "memory");
    let mut paged = Paged::new(device_from(rt, image));
    let mut out = output(rt, expected, manner, false);
    let answer = cbfs_commands::run(&mut paged, command, &mut MemSource::new(&[]), &mut out);
    drop(paged);
    let has_failed = ends(rt, answer.is_ok(), out);
    equal(rt, &is_done_or_output(answer), &true);
    has_failed
}

fn is_done_or_output(answer: Result<(), Refusal>) -> bool {
    match answer {
        Ok(()) | Err(Refusal::Output) => true,
        Err(_) => false,
    }
}

const THREE: Manner = Manner { piece: 3, ..GOOD };

#[test]
fn listings_and_contents(rt: HostRuntime) {
    let image = board(&rt, WITH_A);
    equal(
        &rt,
        &runs_at_each_call(&rt, &image, &PRINT, A_AND_416, THREE),
        &15,
    );
    let areas = b"fmap\t0x0\tFLASH\t4096\t3\nFMAP\t0x0\t512\t0x0\nCOREBOOT\t0x200\t512\t0x0\n\
REST\t0x400\t3072\t0x0\n";
    let calls = runs_at_each_call(&rt, &image, &Command::Layout, areas, THREE);
    equal(&rt, &calls, &28);
    let extract = Command::Extract {
        region: COREBOOT,
        name: b"a",
    };
    equal(
        &rt,
        &runs_at_each_call(&rt, &image, &extract, b"0123456789", THREE),
        &4,
    );
}

fn reads_area(
    rt: &(impl Abort + AllocGlobal),
    image: &[u8],
    region: &[u8],
    len: usize,
    calls: u32,
) {
    let expected = image
        .get(0x1000..0x1000usize.saturating_add(len))
        .expect(rt, "an area");
    let command = Command::Read { region };
    let many = Manner {
        piece: 10_000,
        ..GOOD
    };
    equal(
        rt,
        &runs_at_each_call(rt, image, &command, expected, many),
        &calls,
    );
}

#[test]
fn areas_at_the_border_of_a_block(rt: HostRuntime) {
    let bytes = text(&rt, 0x20000);
    let image = image_with(&rt, 0x30000, &SIZES, 0x1000, &[(0, &bytes)]);
    reads_area(&rt, &image, b"LESS", 65_535, 7);
    reads_area(&rt, &image, b"SAME", 65_536, 7);
    reads_area(&rt, &image, b"MORE", 65_537, 8);
    reads_area(&rt, &image, b"TWO", 131_072, 14);
}

/// The header of a component `a`, without its length.
const HEADER: [u8; 28] = *b"LARCHIVE\0\0\0\0\0\0\0\x50\0\0\0\0\0\0\0\x1ca\0\0\0";

/// Checks the extraction of a content, and returns the number of calls of the writer.
fn extracts_content(rt: &(impl Abort + AllocGlobal), content: &[u8]) -> u32 {
    let mut header = HEADER;
    write_over(
        &mut header,
        8,
        &(content.len().min(0xffff_ffff) as u32).to_be_bytes(),
    );
    let image = image_with(rt, 0x30000, &SIZES, 0x1000, &[(0, &header), (28, content)]);
    let command = Command::Extract {
        region: b"TWO",
        name: b"a",
    };
    let many = Manner {
        piece: 10_000,
        ..GOOD
    };
    runs_at_each_call(rt, &image, &command, content, many)
}

#[test]
fn contents_at_the_border_of_a_block(rt: HostRuntime) {
    let bytes = text(&rt, 0x20000);
    for (len, calls) in [(65_535, 7), (65_536, 7), (65_537, 8)] {
        let content = bytes.get(..len).expect(&rt, "a content");
        equal(&rt, &extracts_content(&rt, content), &calls);
    }
}

fn compiles_once(rt: &(impl Abort + AllocGlobal), manner: Manner) -> bool {
    let mut out = output(rt, &TABLE, manner, false);
    let answer = fmap_compiler::run(rt.alloc(), &mut ReadText::new(TEXT), &mut out);
    ends(rt, answer.is_ok(), out)
}

#[test]
fn a_table(rt: HostRuntime) {
    for left in 0..47 {
        equal(&rt, &compiles_once(&rt, Manner { left, ..THREE }), &true);
    }
    equal(
        &rt,
        &compiles_once(&rt, Manner { left: 47, ..THREE }),
        &false,
    );
}

/// The report of an image without findings.
const REPORT: &[u8] = b"sound: 0 bad, 0 remarks, 0 changes\n";

fn reports_once(rt: &(impl Abort + AllocGlobal), manner: Manner) -> bool {
    let inspection = Inspection {
        areas: Vec::new(rt.alloc()),
        findings: Vec::new(rt.alloc()),
        board: Vec::new(rt.alloc()),
        digests: Vec::new(rt.alloc()),
        changes: None,
    };
    let out = output(rt, REPORT, manner, false);
    let WrittenReport { out, is_bad } = inspection.write(rt.alloc(), request(&[], Form::Text), out);
    equal(rt, &(is_bad == Err(WriteFault::Memory)), &false);
    ends(rt, is_bad.is_ok(), out)
}

#[test]
fn a_report(rt: HostRuntime) {
    for left in 0..100 {
        if !reports_once(&rt, Manner { left, ..THREE }) {
            equal(&rt, &left, &12);
            return;
        }
    }
    equal(&rt, &false, &true);
}

/// A JSON report without rows: the bytes before and after the image's path.
const BEFORE_PATH: &[u8] = b"{\"format\":1,\"image\":\"";

const AFTER_PATH: &[u8] =
    b"\",\"rows\":[],\"verdict\":\"sound\",\"bad\":0,\"remarks\":0,\"changes\":0}\n";

/// Returns the report of `len` bytes on an image with a long path.
fn report_of(rt: &(impl Abort + AllocGlobal), len: usize) -> Vec<u8> {
    let mut text = filled(rt, b'p', len);
    write_over(&mut text, 0, BEFORE_PATH);
    write_over(&mut text, len.saturating_sub(AFTER_PATH.len()), AFTER_PATH);
    text
}

fn reports_text(rt: &(impl Abort + AllocGlobal), text: &[u8], manner: Manner) -> bool {
    let end = text.len().saturating_sub(AFTER_PATH.len());
    let path = text.get(BEFORE_PATH.len()..end).unwrap_or(&[]);
    let inspection = Inspection {
        areas: Vec::new(rt.alloc()),
        findings: Vec::new(rt.alloc()),
        board: Vec::new(rt.alloc()),
        digests: Vec::new(rt.alloc()),
        changes: None,
    };
    let request = Request {
        files: Files {
            image: std::str::from_utf8(path).unwrap_or(""),
            old: None,
        },
        ..request(&[], Form::Json)
    };
    let out = output(rt, text, manner, false);
    let WrittenReport { out, is_bad } = inspection.write(rt.alloc(), request, out);
    equal(rt, &(is_bad == Err(WriteFault::Memory)), &false);
    ends(rt, is_bad.is_ok(), out)
}

/// Checks a report with a failure at each call of the writer, and returns the number of calls.
fn reports_at_each_call(rt: &(impl Abort + AllocGlobal), text: &[u8]) -> u32 {
    for left in 0..100 {
        let manner = Manner {
            piece: 10_000,
            left,
            ..GOOD
        };
        if !reports_text(rt, text, manner) {
            return left;
        }
    }
    100
}

#[test]
fn reports_at_the_border_of_a_block(rt: HostRuntime) {
    for (len, calls) in [(65_535, 7), (65_536, 7), (65_537, 8), (131_072, 14)] {
        let text = report_of(&rt, len);
        equal(&rt, &reports_at_each_call(&rt, &text), &calls);
    }
}
