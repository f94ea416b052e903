//! The lexer of descriptors.

ghost use Rattle.std.specs.Prelude.{◌≡◌, ◌<◌, ◌+◌, ◌^◌, nat_eq};
ghost use Rattle.std.specs.List.{position_or_len, prefix_len};
ghost use Rattle.fmd_lang.specs.Words as spec;
ghost use Rattle.fmd_lang.specs.ParserResults.{IsFirst, piece_end};

/// The kind of a token, by the first byte.
#[derive(Clone, Copy)]
pub enum Kind {
    /// Plain bytes without a leading digit.
    Name,
    /// Plain bytes with a leading digit.
    Number,
    OpenParen,
    CloseParen,
    At,
    OpenBrace,
    CloseBrace,
    /// An invalid byte.
    Bad,
    /// The end of the text.
    End,
}

/// A token, and the offset.
#[derive(Clone, Copy)]
pub struct Word<'t> {
    pub place: usize,
    pub bytes: &'t [u8],
}

/// Returns the next token, empty at the end. `from` is outside tokens and comments.
pub fn next_word<'t>(text: &'t [u8], from: usize) -> Word<'t>
    ensures { IsFirst text.now from result }
{
    let mut place = from;
    while place < text.len() {
        let byte = text[place];
        if is_blank(byte) {
            place += 1;
        } else if byte == b'#' {
            place += comment_len(&text[place..]);
        } else {
            let len = plain_len(&text[place..]).max(1);
            return Word {
                place,
                bytes: &text[place..place + len],
            };
        }
    }
    Word {
        place: text.len(),
        bytes: &[],
    }
}

/// Counts the bytes before the first line feed.
fn comment_len(bytes: &[u8]) -> usize
    ensures { result ≡ position_or_len (λ b. nat_eq b 10) bytes.now }
{
    bytes.iter().take_while(|byte| **byte != b'\n').count()
}

fn plain_len(bytes: &[u8]) -> usize
    ensures { result ≡ prefix_len spec.is_plain bytes.now }
{
    bytes.iter().take_while(|byte| is_plain(**byte)).count()
}

fn is_blank(byte: u8) -> bool
    ensures { result ≡ spec.is_blank byte }
{
    matches!(byte, b' ' | b'\t' | b'\n' | b'\r')
}

fn is_plain(byte: u8) -> bool
    ensures { result ≡ spec.is_plain byte }
{
    matches!(byte, 0x21..=0x7e) && !matches!(byte, b'#' | b'@' | b'{' | b'}' | b'(' | b')')
}

impl Word<'_> {
    /// Returns the kind of the token.
    pub fn kind(&self) -> Kind
        ensures { result ≡ spec.kind_of self.now.bytes.now }
    {
        let Some(first) = self.bytes.first() else {
            return Kind::End;
        };
        match *first {
            b'(' => Kind::OpenParen,
            b')' => Kind::CloseParen,
            b'@' => Kind::At,
            b'{' => Kind::OpenBrace,
            b'}' => Kind::CloseBrace,
            b'0'..=b'9' => Kind::Number,
            byte if is_plain(byte) => Kind::Name,
            _ => Kind::Bad,
        }
    }

    /// Returns the offset after the token.
    pub fn end(&self) -> usize
        requires { piece_end self.now < 2 ^ 64 }
        ensures { result ≡ piece_end self.now }
    {
        self.place + self.bytes.len()
    }
}
