//! Bytes by their kind.
ghost use Rattle.std.specs.Prelude.{◌≡◌, ◌==◌, ◌||◌};
ghost use Rattle.nz_script.specs.text.Text as script;
ghost use Rattle.nz_script.specs.text.Tree as text;
ghost use Rattle.nz_sexpr.specs.Bytes.{class_view};

/// What a byte is, where no word goes on and no comment, string or quoted symbol is open.
#[derive(Clone, Copy, PartialEq, Eq)]
pub(crate) enum Kind {
    Blank,
    Left,
    Right,
    /// `;`
    Comment,
    /// `"`
    Quote,
    /// `|`
    Bar,
    Word,
}

pub(crate) fn kind_of(byte: u8) -> Kind
    ensures { class_view result ≡ script.class_of byte }
{
    match byte {
        b'\t' | b'\n' | b'\r' | b' ' => Kind::Blank,
        b'(' => Kind::Left,
        b')' => Kind::Right,
        b';' => Kind::Comment,
        b'"' => Kind::Quote,
        b'|' => Kind::Bar,
        _ => Kind::Word,
    }
}

/// A letter, a digit, or one of `~!@$%^&*_-+=<>.?/`.
pub(crate) fn is_symbol_byte(byte: u8) -> bool
    ensures { result ≡ text.is_symbol_byte byte }
{
    matches!(
        byte,
        b'a'..=b'z' | b'A'..=b'Z' | b'0'..=b'9'
            | b'~' | b'!' | b'@' | b'$' | b'%' | b'^' | b'&' | b'*' | b'_' | b'-' | b'+' | b'=' | b'<'
            | b'>' | b'.' | b'?' | b'/'
    )
}

pub(crate) fn is_digit(byte: u8) -> bool
    ensures { result ≡ text.is_digit byte }
{
    b'0' <= byte && byte <= b'9'
}

/// A digit of base 16, in either case.
pub(crate) fn is_hexadecimal_digit(byte: u8) -> bool
    ensures { result ≡ text.is_hexadecimal_digit byte }
{
    matches!(byte, b'0'..=b'9' | b'A'..=b'F' | b'a'..=b'f')
}

/// `0` or `1`.
pub(crate) fn is_binary_digit(byte: u8) -> bool
    ensures { result ≡ (byte == 48) || (byte == 49) }
{
    byte == b'0' || byte == b'1'
}

/// A byte by which a comment ends.
pub(crate) fn is_line_end(byte: u8) -> bool
    ensures { result ≡ script.is_line_end byte }
{
    byte == b'\n' || byte == b'\r'
}

/// A byte that may stand in a string literal: white space, one that prints, or one above ASCII.
pub(crate) fn is_literal_byte(byte: u8) -> bool
    ensures { result ≡ script.is_literal_byte byte }
{
    matches!(byte, b'\t' | b'\n' | b'\r' | b' '..=b'~' | 128..=255)
}

/// A byte that may stand in a quoted symbol: the same, but no bar and no backslash.
pub(crate) fn is_quoted_byte(byte: u8) -> bool
    ensures { result ≡ script.is_quoted_byte byte }
{
    is_literal_byte(byte) && byte != b'|' && byte != b'\\'
}
