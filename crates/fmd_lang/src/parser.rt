//! The parser. Each function returns a value and the next offset.

ghost use Rattle.std.specs.Prelude.{◌≡◌, ◌≤◌, ◌<◌, ◌+◌, ◌∷◌, suc, length};
ghost use Rattle.std.specs.Prelude.{Some, None, Err, IfOk, IfErr};
ghost use Rattle.fmd_lang.specs.Words.{words};
ghost use Rattle.fmd_lang.specs.Faults.{Stage, fault_at, FailsWith, start};
ghost use Rattle.fmd_lang.specs.Faults.{past, at_sign, first_fault};
ghost use Rattle.fmd_lang.specs.Grammar.{One, Then, IsA, HasValue, IsName, IsOffset, IsSize};
ghost use Rattle.fmd_lang.specs.Grammar.{AreAnnotations, AreSections, Enclosed, IsSection, none};
ghost use Rattle.fmd_lang.specs.Grammar.{view, views};
ghost use Rattle.fmd_lang.specs.ParserResults.{Parses, IsNext, word_of, piece_end};
ghost use Rattle.fmd_lang.specs.Grammar as grammar;
ghost use Rattle.fmd_lang.specs.declared.word.Kind.TheVariants.{CloseBrace, OpenBrace};
ghost use Rattle.fmd_lang.specs.declared.word.Kind.TheVariants.{Number};

use crate::fault::{Expected, FmdFault};
use crate::number::read_number;
use crate::section::Section;
use crate::word::{Kind, Word, next_word};
use std::alloc::Global;

/// The maximum length of a text, in bytes.
pub const TEXT_LIMIT: usize = 1_048_576;

/// The maximum number of open braces.
const DEPTH_LIMIT: u32 = 32;

/// The maximum length of a name, in bytes.
const NAME_LIMIT: usize = 31;

/// A token without a lexical fault.
#[derive(Clone, Copy)]
struct Token<'t> {
    word: Word<'t>,
    kind: Kind,
    value: Option<u32>,
}

/// Returns the tree of a descriptor, or the first fault: of the text's length, of a word, or of the
/// grammar in docs/FORMAT.md. Returns `Memory` if an allocation failed.
///
/// For example, this returns a section BIOS of 4 MiB with two parts:
///
/// ```text
/// let text = b"BIOS@0xffc00000 4M { FMAP 4K COREBOOT(CBFS) }";
/// let bios = parse(alloc, text)?;
/// ```
#[tactic(auto, unfolding(crate::specs::Faults::first_fault))]
pub fn parse(alloc: Global, text: &[u8]) -> Result<Section, FmdFault>
    ensures tree { IfOk result (λ t. IsSection (view t) (words text.now)) }
    ensures refused { FailsWith (first_fault text.now) result }
{
    if text.len() > TEXT_LIMIT {
        return Err(FmdFault::TextTooLong);
    }
    let (tree, to) = root(alloc, text)?;
    let token = peek(text, to, 0)?;
    match token.kind {
        Kind::End => Ok(tree),
        _ => expected(token.word.place, Expected::End),
    }
}

fn root(alloc: Global, text: &[u8]) -> Result<(Section, usize), FmdFault>
    ensures { Parses (λ t ws. IsSection (view t) ws) (start, 0) (past 4, 0) text.now 0 result }
{
    let token = peek(text, 0, 0)?;
    match token.kind {
        Kind::Name => section(alloc, text, &token.word, 0),
        _ => expected(token.word.place, Expected::Section),
    }
}

#[cycle(section)]
fn section(
    alloc: Global,
    text: &[u8],
    name: &Word<'_>,
    depth: u32,
) -> Result<(Section, usize), FmdFault>
    requires inside { piece_end name.now ≤ length text.now }
    requires name { IsName name.now.bytes.now (word_of name.now) }
    ensures { Parses (λ t ws. IsSection (view t) (word_of name.now ∷ ws)) (past 0, depth)
        (past 4, depth) text.now (piece_end name.now) result }
{
    let (flags, at) = annotations(text, name.end(), depth)?;
    let (offset, at) = offset(text, at, depth)?;
    let (size, at) = size(text, at, depth)?;
    let (parts, to) = body(alloc, text, at, depth)?;
    let section = Section {
        name: name.bytes.to_vec(alloc)?,
        flags,
        offset,
        size,
        parts,
    };
    Ok((section, to))
}

#[cycle(section)]
fn body(
    alloc: Global,
    text: &[u8],
    from: usize,
    depth: u32,
) -> Result<(Vec<Section>, usize), FmdFault>
    ensures { Parses (λ v. Enclosed OpenBrace CloseBrace (AreSections (views v.items))
        (views v.items ≡ none)) (past 3, depth) (past 4, depth) text.now from result }
{
    let token = peek(text, from, depth)?;
    match token.kind {
        Kind::OpenBrace => sections(alloc, text, token.word.end(), depth),
        _ => Ok((Vec::new(alloc), from)),
    }
}

/// Parses sections up to `}`, at the depth `depth + 1`.
#[cycle(section)]
fn sections(
    alloc: Global,
    text: &[u8],
    from: usize,
    depth: u32,
) -> Result<(Vec<Section>, usize), FmdFault>
    requires depth { depth < DEPTH_LIMIT }
    ensures { Parses (λ v. Then (AreSections (views v.items)) (One (IsA CloseBrace)))
        (past 4, suc depth) (past 4, depth) text.now from result }
{
    let mut parts = Vec::new(alloc);
    let mut at = from;
    loop {
        let token = peek(text, at, depth + 1)?;
        match token.kind {
            Kind::CloseBrace => return Ok((parts, token.word.end())),
            Kind::Name => {
                let (part, to) = section(alloc, text, &token.word, depth + 1)?;
                parts.push(part)?;
                at = to;
            }
            _ => return expected(token.word.place, Expected::SectionOrClose),
        }
    }
}

fn annotations(text: &[u8], from: usize, depth: u32) -> Result<(u16, usize), FmdFault>
    ensures { Parses AreAnnotations (past 0, depth) (past 1, depth) text.now from result }
{
    let token = peek(text, from, depth)?;
    let Kind::OpenParen = token.kind else {
        return Ok((0, from));
    };
    let mut flags = 0;
    let mut at = token.word.end();
    let mut any = false;
    loop {
        let token = peek(text, at, depth)?;
        let Some(flag) = annotation_flag(token.word.bytes) else {
            return match token.kind {
                _ if !any => expected(token.word.place, Expected::Annotation),
                Kind::CloseParen => Ok((flags, token.word.end())),
                Kind::Name => expected(token.word.place, Expected::Annotation),
                _ => expected(token.word.place, Expected::CloseParen),
            };
        };
        flags |= flag;
        any = true;
        at = token.word.end();
    }
}

fn annotation_flag(bytes: &[u8]) -> Option<u16>
    ensures { result ≡ grammar.annotation_flag bytes.now }
{
    if bytes == b"CBFS".as_slice() {
        Some(0)
    } else if bytes == b"PRESERVE".as_slice() {
        Some(8)
    } else {
        None
    }
}

fn offset(text: &[u8], from: usize, depth: u32) -> Result<(Option<u32>, usize), FmdFault>
    ensures { Parses IsOffset (past 1, depth) (past 2, depth) text.now from result }
{
    let token = peek(text, from, depth)?;
    match token.kind {
        Kind::At => {
            let (value, to) = number(text, token.word.end(), depth)?;
            Ok((Some(value), to))
        }
        _ => Ok((None, from)),
    }
}

fn number(text: &[u8], from: usize, depth: u32) -> Result<(u32, usize), FmdFault>
    ensures { Parses (λ n. One (HasValue n)) (at_sign, depth) (past 2, depth) text.now from result }
{
    let token = peek(text, from, depth)?;
    match token.value {
        Some(number) => Ok((number, token.word.end())),
        None => expected(token.word.place, Expected::Number),
    }
}

fn size(text: &[u8], from: usize, depth: u32) -> Result<(Option<u32>, usize), FmdFault>
    ensures { Parses IsSize (past 2, depth) (past 3, depth) text.now from result }
{
    let token = peek(text, from, depth)?;
    match token.value {
        Some(size) => Ok((Some(size), token.word.end())),
        None => Ok((None, from)),
    }
}

/// Returns the token at an offset, or the lexical fault.
fn peek<'t>(text: &'t [u8], from: usize, depth: u32) -> Result<Token<'t>, FmdFault>
    ensures next { IfOk result (λ token. IsNext text.now from depth token) }
    ensures refused { IfErr result (λ fault.
        (s : Stage) → fault_at text.now from (s, depth) ≡ Some fault) }
{
    let word = next_word(text, from);
    let kind = word.kind();
    let at = word.place;
    match kind {
        Kind::Bad => Err(FmdFault::BadByte { at }),
        Kind::Name if word.bytes.len() > NAME_LIMIT => Err(FmdFault::NameTooLong { at }),
        Kind::OpenBrace if depth >= DEPTH_LIMIT => Err(FmdFault::TooDeep),
        Kind::Number => {
            let value = Some(read_number(at, word.bytes)?);
            Ok(Token { word, kind, value })
        }
        _ => Ok(Token {
            word,
            kind,
            value: None,
        }),
    }
}

fn expected<T>(at: usize, what: Expected) -> Result<T, FmdFault>
    ensures { result ≡ Err (FmdFault.Expected at what) }
{
    Err(FmdFault::Expected { at, what })
}
