//! Trees and tables of descriptors, and each refusal with the offset.
use crate::compiler::descriptors::{TABLE, TEXT};
use crate::edit::halves::HALVES;
use crate::rows::add::MAP_BEHIND;
use crate::rows::create::TWO;
use crate::rows::support::BOARD;
use crate::support::{equal, filled, has_all, same_bytes, write_over, writer};
use flash_format::Area;
use fmap_compiler::{ReadText, run};
use fmd_lang::{Expected, FmdFault, Section, Table, encode, lay_out, parse};
use std::process::Abort;

// ---- trees and tables

fn tree_of(rt: &(impl Abort + AllocGlobal), text: &[u8]) -> Section {
    parse(rt.alloc(), text).expect(rt, "a tree")
}

fn part<'a>(rt: &impl Abort, section: &'a Section, index: usize) -> &'a Section {
    section.parts.get(index).expect(rt, "a part")
}

fn is_section(
    rt: &impl Abort,
    section: &Section,
    name: &[u8],
    flags: u16,
    offset: Option<u32>,
    size: Option<u32>,
    parts: usize,
) {
    same_bytes(rt, &section.name, name);
    equal(rt, &(section.flags, section.parts.len()), &(flags, parts));
    equal(rt, &section.offset, &offset);
    equal(rt, &section.size, &size);
}

fn table_of(rt: &(impl Abort + AllocGlobal), text: &[u8]) -> Table {
    let tree = tree_of(rt, text);
    let table = lay_out(rt.alloc(), &tree).expect(rt, "a table");
    drop(tree);
    table
}

fn padded(name: &[u8]) -> [u8; 32] {
    let mut field = [0; 32];
    write_over(&mut field, 0, name);
    field
}

fn has_head(rt: &impl Abort, table: &Table, base: u64, size: u32, name: &[u8], areas: usize) {
    equal(
        rt,
        &(table.base, table.size, table.areas.len()),
        &(base, size, areas),
    );
    same_bytes(rt, &table.name, &padded(name));
}

fn has_area(
    rt: &impl Abort,
    table: &Table,
    index: usize,
    name: &[u8],
    place: (u32, u32),
    flags: u16,
) {
    let area = table.areas.get(index).expect(rt, "an area");
    same_bytes(rt, &area.name, &padded(name));
    equal(rt, &(area.offset, area.size), &place);
    equal(rt, &area.flags, &flags);
}

fn is_encoded(rt: &(impl Abort + AllocGlobal), table: &Table, wanted: &[u8]) {
    let bytes = encode(rt.alloc(), table).expect(rt, "bytes");
    same_bytes(rt, &bytes, wanted);
    drop(bytes);
}

fn compiles(rt: &(impl Abort + AllocGlobal), text: &[u8], wanted: &[u8]) {
    let mut reader = ReadText::new(text);
    let mut out = writer(4096, usize::MAX, wanted);
    equal(rt, &run(rt.alloc(), &mut reader, &mut out), &Ok(()));
    has_all(rt, out);
    drop(reader);
}

#[test]
fn the_tree_of_a_board(rt: HostRuntime) {
    let tree = tree_of(&rt, TEXT);
    is_section(&rt, &tree, b"FLASH", 0, Some(0xff00_0000), Some(0x1000), 2);
    is_section(&rt, part(&rt, &tree, 0), b"FMAP", 0, None, Some(0x200), 0);
    is_section(&rt, part(&rt, &tree, 1), b"COREBOOT", 0, None, None, 0);
    drop(tree);
}

#[test]
fn the_table_of_a_board(rt: HostRuntime) {
    let table = table_of(&rt, TEXT);
    has_head(&rt, &table, 0xff00_0000, 0x1000, b"FLASH", 2);
    has_area(&rt, &table, 0, b"FMAP", (0, 0x200), 0);
    has_area(&rt, &table, 1, b"COREBOOT", (0x200, 0xe00), 0);
    is_encoded(&rt, &table, &TABLE);
    drop(table);
    compiles(&rt, TEXT, &TABLE);
}

#[test]
fn the_maps_of_other_examples(rt: HostRuntime) {
    compiles(
        &rt,
        b"FLASH@0xff000000 0x1000 { FMAP 0x200 COREBOOT(CBFS) 0x200 REST }",
        &BOARD,
    );
    compiles(
        &rt,
        b"FLASH 0x1000 { COREBOOT(CBFS) 0x200 FMAP 0x200 REST }",
        &MAP_BEHIND,
    );
    compiles(&rt, b"F 4K { FMAP 1K B(CBFS) C(CBFS) 1K }", &TWO);
    compiles(&rt, b"F 32K { FMAP 16K COREBOOT(CBFS) 16K }", &HALVES);
}

const OMITTED: &[u8] = b"F 4K { FMAP 1K B C 1K }";

#[test]
fn a_size_that_is_omitted_between_others(rt: HostRuntime) {
    let table = table_of(&rt, OMITTED);
    has_head(&rt, &table, 0, 0x1000, b"F", 3);
    has_area(&rt, &table, 0, b"FMAP", (0, 0x400), 0);
    has_area(&rt, &table, 1, b"B", (0x400, 0x800), 0);
    has_area(&rt, &table, 2, b"C", (0xc00, 0x400), 0);
    drop(table);
}

pub const NESTED: &[u8] = b"F@0x10 4K { FMAP 1K P(PRESERVE)@2K 1K { Q 512 R } }";

/// The encoded table of `NESTED`.
pub const NESTED_TABLE: [u8; 224] = *b"__FMAP__\x01\x01\x10\0\0\0\0\0\0\0\0\x10\0\0\
F\0\0\0\0\0\0\0\0\0\0\0\0\0\0\0\0\0\0\0\0\0\0\0\0\0\0\0\0\0\0\0\x04\0\
\0\0\0\0\0\x04\0\0FMAP\0\0\0\0\0\0\0\0\0\0\0\0\0\0\0\0\0\0\0\0\0\0\0\0\0\0\0\0\0\0\
\0\x08\0\0\0\x04\0\0P\0\0\0\0\0\0\0\0\0\0\0\0\0\0\0\0\0\0\0\0\0\0\0\0\0\0\0\0\0\0\0\x08\0\
\0\x08\0\0\0\x02\0\0Q\0\0\0\0\0\0\0\0\0\0\0\0\0\0\0\0\0\0\0\0\0\0\0\0\0\0\0\0\0\0\0\0\0\
\0\x0a\0\0\0\x02\0\0R\0\0\0\0\0\0\0\0\0\0\0\0\0\0\0\0\0\0\0\0\0\0\0\0\0\0\0\0\0\0\0\0\0";

#[test]
fn the_tree_of_sections_in_sections(rt: HostRuntime) {
    let tree = tree_of(&rt, NESTED);
    is_section(&rt, &tree, b"F", 0, Some(0x10), Some(0x1000), 2);
    is_section(&rt, part(&rt, &tree, 0), b"FMAP", 0, None, Some(0x400), 0);
    let preserved = part(&rt, &tree, 1);
    is_section(&rt, preserved, b"P", 8, Some(0x800), Some(0x400), 2);
    is_section(&rt, part(&rt, preserved, 0), b"Q", 0, None, Some(0x200), 0);
    is_section(&rt, part(&rt, preserved, 1), b"R", 0, None, None, 0);
    drop(tree);
}

#[test]
fn the_table_of_sections_in_sections(rt: HostRuntime) {
    let table = table_of(&rt, NESTED);
    has_head(&rt, &table, 0x10, 0x1000, b"F", 4);
    has_area(&rt, &table, 0, b"FMAP", (0, 0x400), 0);
    has_area(&rt, &table, 1, b"P", (0x800, 0x400), 8);
    has_area(&rt, &table, 2, b"Q", (0x800, 0x200), 0);
    has_area(&rt, &table, 3, b"R", (0xa00, 0x200), 0);
    is_encoded(&rt, &table, &NESTED_TABLE);
    drop(table);
    compiles(&rt, NESTED, &NESTED_TABLE);
}

// ---- refusals

fn fault_of(rt: &(impl Abort + AllocGlobal), text: &[u8]) -> Option<FmdFault> {
    match parse(rt.alloc(), text) {
        Ok(_) => None,
        Err(fault) => Some(fault),
    }
}

fn refuses(rt: &(impl Abort + AllocGlobal), text: &[u8], fault: FmdFault) {
    equal(rt, &fault_of(rt, text), &Some(fault));
}

fn expects(rt: &(impl Abort + AllocGlobal), text: &[u8], at: usize, what: Expected) {
    refuses(rt, text, FmdFault::Expected { at, what });
}

#[test]
fn words_that_are_refused(rt: HostRuntime) {
    refuses(
        &rt,
        b"FLASH 4K { FMAP 010 }",
        FmdFault::BadNumber { at: 16 },
    );
    refuses(&rt, b"F 4G {}", FmdFault::NumberTooLarge { at: 2 });
    refuses(&rt, b"F\x7f", FmdFault::BadByte { at: 1 });
    refuses(&rt, &[b'A'; 32], FmdFault::NameTooLong { at: 0 });
    refuses(
        &rt,
        b"A{A{A{A{A{A{A{A{A{A{A{A{A{A{A{A{A{A{A{A{A{A{A{A{A{A{A{A{A{A{A{A{A{",
        FmdFault::TooDeep,
    );
    let long = filled(&rt, b' ', 1_048_577);
    refuses(&rt, &long, FmdFault::TextTooLong);
    drop(long);
}

#[test]
fn words_that_were_not_expected(rt: HostRuntime) {
    expects(&rt, b"", 0, Expected::Section);
    expects(&rt, b"F 4K 5", 5, Expected::End);
    expects(&rt, b"F(X)", 2, Expected::Annotation);
    expects(&rt, b"F(CBFS X)", 7, Expected::Annotation);
    expects(&rt, b"F(CBFS 5", 7, Expected::CloseParen);
    expects(&rt, b"F@{", 2, Expected::Number);
    expects(&rt, b"F{A 1 2", 6, Expected::SectionOrClose);
    expects(&rt, b"F{5", 2, Expected::SectionOrClose);
}

fn layout_fault(rt: &(impl Abort + AllocGlobal), tree: &Section) -> Option<FmdFault> {
    match lay_out(rt.alloc(), tree) {
        Ok(_) => None,
        Err(fault) => Some(fault),
    }
}

fn refuses_layout(rt: &(impl Abort + AllocGlobal), text: &[u8], fault: FmdFault) {
    let tree = tree_of(rt, text);
    equal(rt, &layout_fault(rt, &tree), &Some(fault));
    drop(tree);
}

#[test]
fn layouts_that_are_refused(rt: HostRuntime) {
    refuses_layout(&rt, b"F { FMAP }", FmdFault::Ambiguous { section: 0 });
    refuses_layout(&rt, b"F 4K { FMAP A }", FmdFault::Ambiguous { section: 2 });
    refuses_layout(
        &rt,
        b"F 4K { FMAP 4K A }",
        FmdFault::EmptySection { section: 2 },
    );
    refuses_layout(
        &rt,
        b"F 4K { FMAP 1K A@512 1K }",
        FmdFault::Overlap { section: 2 },
    );
    refuses_layout(
        &rt,
        b"F 4K { FMAP 1K A 4K }",
        FmdFault::Outside { section: 2 },
    );
    refuses_layout(
        &rt,
        b"F 4K { FMAP 1K FMAP 1K }",
        FmdFault::Duplicate { section: 2 },
    );
    refuses_layout(&rt, b"F 4K { A 1K }", FmdFault::NoFmap);
    refuses_layout(&rt, b"F 4K { FMAP 64 A }", FmdFault::FmapTooSmall);
}

// ---- too many areas

fn section(rt: &(impl Abort + AllocGlobal), name: &[u8]) -> Section {
    Section {
        name: name.to_vec(rt.alloc()).expect(rt, "memory"),
        flags: 0,
        offset: None,
        size: None,
        parts: Vec::new(rt.alloc()),
    }
}

/// Returns a name, unique for each number below 65,536.
fn name_of(number: usize) -> [u8; 4] {
    [
        b'a' + ((number >> 12) % 16) as u8,
        b'a' + ((number >> 8) % 16) as u8,
        b'a' + ((number >> 4) % 16) as u8,
        b'a' + (number % 16) as u8,
    ]
}

fn push_sections(rt: &(impl Abort + AllocGlobal), parts: &mut Vec<Section>, count: usize) {
    for number in 0..count {
        parts
            .push(section(rt, &name_of(number)))
            .expect(rt, "memory");
    }
}

#[test]
fn a_layout_of_65536_sections(rt: HostRuntime) {
    let mut root = section(&rt, b"F");
    root.size = Some(0x1000_0000);
    root.parts.push(section(&rt, b"FMAP")).expect(&rt, "memory");
    push_sections(&rt, &mut root.parts, 65_535);
    equal(&rt, &root.parts.len(), &65_536);
    equal(
        &rt,
        &layout_fault(&rt, &root),
        &Some(FmdFault::TooManyAreas),
    );
    drop(root);
}

fn table_with(rt: &(impl Abort + AllocGlobal), areas: usize) -> Table {
    let area = Area {
        offset: 0,
        size: 1,
        name: [0; 32],
        flags: 0,
    };
    Table {
        base: 0,
        size: 1,
        name: [0; 32],
        areas: Vec::from_elem(rt.alloc(), area, areas).expect(rt, "memory"),
    }
}

fn length_of(rt: &(impl Abort + AllocGlobal), table: &Table) -> Result<usize, FmdFault> {
    match encode(rt.alloc(), table) {
        Ok(bytes) => Ok(bytes.len()),
        Err(fault) => Err(fault),
    }
}

#[test]
fn a_table_of_65536_areas(rt: HostRuntime) {
    let most = table_with(&rt, 65_535);
    equal(&rt, &length_of(&rt, &most), &Ok(2_752_526));
    drop(most);
    let more = table_with(&rt, 65_536);
    equal(&rt, &length_of(&rt, &more), &Err(FmdFault::TooManyAreas));
    drop(more);
}

// ---- bytes between two tokens

/// The class of each byte between `A` and `1`: blank `_`, part of the name `n`, refused `!`, or the
/// mark itself.
const BYTES: [u8; 256] = *b"!!!!!!!!!__!!_!!\
!!!!!!!!!!!!!!!!\
_nn#nnnn()nnnnnn\
nnnnnnnnnnnnnnnn\
@nnnnnnnnnnnnnnn\
nnnnnnnnnnnnnnnn\
nnnnnnnnnnnnnnnn\
nnnnnnnnnnn{n}n!\
!!!!!!!!!!!!!!!!\
!!!!!!!!!!!!!!!!\
!!!!!!!!!!!!!!!!\
!!!!!!!!!!!!!!!!\
!!!!!!!!!!!!!!!!\
!!!!!!!!!!!!!!!!\
!!!!!!!!!!!!!!!!\
!!!!!!!!!!!!!!!!";

/// The root's name length, offset and size, or the fault.
type Read = Result<(usize, Option<u32>, Option<u32>), FmdFault>;

fn read(rt: &(impl Abort + AllocGlobal), text: &[u8]) -> Read {
    match parse(rt.alloc(), text) {
        Ok(tree) => Ok((tree.name.len(), tree.offset, tree.size)),
        Err(fault) => Err(fault),
    }
}

fn wanted(mark: u8) -> Read {
    match mark {
        b'_' => Ok((1, None, Some(1))),
        b'n' => Ok((3, None, None)),
        b'#' => Ok((1, None, None)),
        b'@' => Ok((1, Some(1), None)),
        b'{' => unexpected(2, Expected::SectionOrClose),
        b'(' => unexpected(2, Expected::Annotation),
        b'}' | b')' => unexpected(1, Expected::End),
        _ => Err(FmdFault::BadByte { at: 1 }),
    }
}

fn unexpected(at: usize, what: Expected) -> Read {
    Err(FmdFault::Expected { at, what })
}

fn read_each(rt: &(impl Abort + AllocGlobal)) {
    for (byte, mark) in BYTES.iter().enumerate() {
        equal(rt, &read(rt, &[b'A', byte as u8, b'1']), &wanted(*mark));
    }
}

#[test]
fn each_byte_between_two_words(rt: HostRuntime) {
    read_each(&rt);
}
