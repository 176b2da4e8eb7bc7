//! What is being read that may have more bytes than one.
ghost use Rattle.std.specs.Prelude.{◌≡◌, ◌≤◌, ◌<◌, ◌&&◌, Bool, true, length, take, slice_index};
ghost use Rattle.std.specs.List.{list_all};
ghost use Rattle.nz_script.specs.text.Text.{HasNone, is_literal_byte as literal_byte, is_quoted_byte as quoted_byte};
ghost use Rattle.nz_sexpr.specs.Bytes.{ends_word};
ghost use Rattle.nz_sexpr.specs.Part.{ends, part_after, kind_of_part, keeps_text, holds_no_token};

use crate::bytes::{Kind, is_line_end, is_literal_byte, is_quoted_byte, kind_of};
use crate::words::{TokenKind, WordKind};

/// A part that is open after the bytes that were read.
#[derive(Clone, Copy, Debug, PartialEq, Eq)]
pub(crate) enum Part {
    Absent,
    Comment,
    Word(WordKind),
    /// A string literal, and whether each of its bytes may stand in one.
    String(bool),
    /// The same, where its last byte is a quote: its end, or the first of two.
    AfterQuote(bool),
    /// A quoted symbol, and whether each of its bytes may stand in one.
    Quoted(bool),
}

impl Part {
    /// How many bytes at the front go on with the part, or begin a word.
    pub(crate) fn run(self, bytes: &[u8]) -> usize
        ensures bound { result ≤ length bytes.now }
        ensures within { HasNone (ends self) (take result bytes.now) }
        ensures longest { result < length bytes.now → ends self (slice_index bytes.now result) ≡ true }
    {
        for (run, byte) in bytes.iter().enumerate() {
            if self.ends_at(*byte) {
                return run;
            }
        }
        bytes.len()
    }

    /// Whether a run of the part's bytes ends before this byte.
    fn ends_at(self, byte: u8) -> bool
        ensures { result ≡ ends self byte }
    {
        match self {
            Part::Absent | Part::Word(_) => ends_word_at(byte),
            Part::Comment => is_line_end(byte),
            Part::String(_) => byte == b'"',
            Part::AfterQuote(_) => true,
            Part::Quoted(_) => byte == b'|',
        }
    }

    /// The part after a run of its bytes.
    pub(crate) fn after_run(self, run: &[u8]) -> Part
        ensures { result ≡ part_after self run.now }
    {
        match self {
            Part::Absent => Part::Word(WordKind::Empty.after_run(run)),
            Part::Word(kind) => Part::Word(kind.after_run(run)),
            Part::String(clean) => Part::String(clean && are_literal_bytes(run)),
            Part::Quoted(clean) => Part::Quoted(clean && are_quoted_bytes(run)),
            Part::Comment | Part::AfterQuote(_) => self,
        }
    }

    /// Whether the bytes of its runs are a token's.
    pub(crate) fn is_of_token(self) -> bool
        ensures { result ≡ keeps_text self }
    {
        !matches!(self, Part::Comment)
    }

    /// Whether no token is being read.
    pub(crate) fn is_no_token(self) -> bool
        ensures { result ≡ holds_no_token self }
    {
        matches!(self, Part::Absent | Part::Comment)
    }

    /// What token the part is, if it ends here.
    pub(crate) fn token(self) -> Option<TokenKind>
        ensures { result ≡ kind_of_part self }
    {
        match self {
            Part::Word(kind) => kind.token(),
            Part::AfterQuote(true) => Some(TokenKind::Literal),
            Part::Quoted(true) => Some(TokenKind::Symbol),
            Part::Absent | Part::Comment | Part::String(_) => None,
            Part::AfterQuote(false) | Part::Quoted(false) => None,
        }
    }
}

/// Whether a byte is no word's.
fn ends_word_at(byte: u8) -> bool
    ensures { result ≡ ends_word byte }
{
    kind_of(byte) != Kind::Word
}

fn are_literal_bytes(run: &[u8]) -> bool
    ensures { result ≡ list_all literal_byte run.now }
{
    run.iter().all(|byte| is_literal_byte(*byte))
}

fn are_quoted_bytes(run: &[u8]) -> bool
    ensures { result ≡ list_all quoted_byte run.now }
{
    run.iter().all(|byte| is_quoted_byte(*byte))
}
