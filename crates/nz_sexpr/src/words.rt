//! Words by their kind, while their bytes come.
ghost use Rattle.std.specs.Prelude.{◌≡◌, if◌then◌else◌};
ghost use Rattle.nz_script.specs.text.Tree as text;
ghost use Rattle.nz_sexpr.specs.Words.{kind_after, kinds_after, token_kind};

use crate::bytes::{is_binary_digit, is_digit, is_hexadecimal_digit, is_symbol_byte};

/// What a token is, beside its text.
#[derive(Clone, Copy, Debug, PartialEq, Eq)]
pub(crate) enum TokenKind {
    Symbol,
    Keyword,
    Numeral,
    Decimal,
    Hexadecimal,
    Binary,
    Literal,
}

/// How a word stands after the bytes that were read of it.
#[derive(Clone, Copy, Debug, PartialEq, Eq)]
pub(crate) enum WordKind {
    /// It has no byte yet.
    Empty,
    Symbol,
    /// A zero alone.
    Zero,
    /// Digits that don't begin with a zero.
    Digits,
    /// A numeral and a point.
    Point,
    Decimal,
    /// A colon alone.
    Colon,
    Keyword,
    /// `#` alone.
    Hash,
    /// `#x` alone.
    HexadecimalPrefix,
    Hexadecimal,
    /// `#b` alone.
    BinaryPrefix,
    Binary,
    /// It is no token, however it goes on.
    Bad,
}

impl WordKind {
    /// How a word stands after more of its bytes.
    pub(crate) fn after_run(self, run: &[u8]) -> WordKind
        ensures { result ≡ kinds_after self run.now }
    {
        let mut kind = self;
        for byte in run {
            kind = kind.after(*byte);
        }
        kind
    }

    /// How a word stands after one more byte.
    fn after(self, byte: u8) -> WordKind
        ensures { result ≡ kind_after self byte }
    {
        match self {
            WordKind::Empty => first_kind(byte),
            WordKind::Symbol => kind_if(is_symbol_byte(byte), WordKind::Symbol),
            WordKind::Zero => kind_if(byte == b'.', WordKind::Point),
            WordKind::Digits if byte == b'.' => WordKind::Point,
            WordKind::Digits => kind_if(is_digit(byte), WordKind::Digits),
            WordKind::Point | WordKind::Decimal => kind_if(is_digit(byte), WordKind::Decimal),
            WordKind::Colon | WordKind::Keyword => kind_if(is_symbol_byte(byte), WordKind::Keyword),
            WordKind::Hash if byte == b'x' => WordKind::HexadecimalPrefix,
            WordKind::Hash => kind_if(byte == b'b', WordKind::BinaryPrefix),
            WordKind::HexadecimalPrefix | WordKind::Hexadecimal => {
                kind_if(is_hexadecimal_digit(byte), WordKind::Hexadecimal)
            }
            WordKind::BinaryPrefix | WordKind::Binary => {
                kind_if(is_binary_digit(byte), WordKind::Binary)
            }
            WordKind::Bad => WordKind::Bad,
        }
    }

    /// What token the word is, if it ends here.
    pub(crate) fn token(self) -> Option<TokenKind>
        ensures { result ≡ token_kind self }
    {
        match self {
            WordKind::Symbol => Some(TokenKind::Symbol),
            WordKind::Zero | WordKind::Digits => Some(TokenKind::Numeral),
            WordKind::Decimal => Some(TokenKind::Decimal),
            WordKind::Keyword => Some(TokenKind::Keyword),
            WordKind::Hexadecimal => Some(TokenKind::Hexadecimal),
            WordKind::Binary => Some(TokenKind::Binary),
            WordKind::Empty | WordKind::Point | WordKind::Colon | WordKind::Hash => None,
            WordKind::HexadecimalPrefix | WordKind::BinaryPrefix | WordKind::Bad => None,
        }
    }
}

/// How a word stands that begins with this byte.
fn first_kind(byte: u8) -> WordKind
    ensures { result ≡ kind_after WordKind.Empty byte }
{
    match byte {
        b'0' => WordKind::Zero,
        b':' => WordKind::Colon,
        b'#' => WordKind::Hash,
        _ if is_digit(byte) => WordKind::Digits,
        _ => kind_if(is_symbol_byte(byte), WordKind::Symbol),
    }
}

/// This kind where its test holds; the word is no token else.
fn kind_if(holds: bool, kind: WordKind) -> WordKind
    ensures { result ≡ (if holds then kind else WordKind.Bad) }
{
    if holds { kind } else { WordKind::Bad }
}

/// Whether a name is a simple symbol, which is spelled without bars (SMT-LIB 2.6, section 3.1).
pub fn is_simple_symbol(name: &[u8]) -> bool
    ensures simple { result ≡ text.is_simple_symbol name.now }
{
    matches!(WordKind::Empty.after_run(name), WordKind::Symbol)
}
