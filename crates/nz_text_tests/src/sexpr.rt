//! Of `nz_sexpr`: the reader on hostile scripts, for many cuttings.
mod table;

use crate::checks::is;
use nz_base::{Memory, Text};
use nz_sexpr::{Heard, Limits, Reader, Token, Tree, TreeList, What};
use std::alloc::{AllocError, Global};
use std::process::Abort;
use std::test::Fail;
use table::{HEARD, HEARD_AT_LIMITS};

const SCRIPT_LIMITS: Limits = Limits {
    depth: 200,
    bytes: 1 << 20,
};

fn new_reader(alloc: Global, limits: Limits) -> Reader {
    Reader::new(alloc, limits)
}

fn feed(reader: &mut Reader, piece: &[u8]) -> (usize, Option<Heard>) {
    reader.feed(piece)
}

fn finish(reader: &mut Reader) -> Option<Heard> {
    reader.finish()
}

/// What is heard first in a script.
pub(crate) fn first_heard(alloc: Global, script: &[u8]) -> Option<Heard> {
    let mut reader = new_reader(alloc, SCRIPT_LIMITS);
    let (_, heard) = feed(&mut reader, script);
    heard
}

/// Feeds a whole piece, and puts what is heard at the end of `all`.
fn read_piece(reader: &mut Reader, piece: &[u8], all: &mut Vec<Heard>) -> Result<(), Fail> {
    let mut at: usize = 0;
    // Each turn uses a byte, or tells what was owed.
    for _ in 0..piece.len().saturating_mul(2).saturating_add(2) {
        let Some(rest) = piece.get(at..) else {
            return Err(Fail::from("more bytes are used than there are"));
        };
        let (used, heard) = feed(reader, rest);
        let Some(heard) = heard else {
            return Ok(());
        };
        all.push(heard)?;
        at = at.saturating_add(used);
    }
    Err(Fail::from("a piece without an end"))
}

/// Ends the input, and puts what is heard at the end of `all`.
fn read_end(reader: &mut Reader, all: &mut Vec<Heard>) -> Result<(), Fail> {
    if let Some(heard) = finish(reader) {
        all.push(heard)?;
    }
    Ok(())
}

/// All that is heard in the bytes, cut into pieces of this size.
fn read_all(alloc: Global, limits: Limits, bytes: &[u8], size: usize) -> Result<Vec<Heard>, Fail> {
    let mut reader = new_reader(alloc, limits);
    let mut all = Vec::new(alloc);
    for piece in bytes.chunks(size.max(1)) {
        read_piece(&mut reader, piece, &mut all)?;
    }
    read_end(&mut reader, &mut all)?;
    Ok(all)
}

/// All that is heard in the bytes, cut in two.
fn read_cut(alloc: Global, limits: Limits, bytes: &[u8], cut: usize) -> Result<Vec<Heard>, Fail> {
    let Some((front, back)) = bytes.split_at_checked(cut) else {
        return Err(Fail::from("no place to cut at"));
    };
    let mut reader = new_reader(alloc, limits);
    let mut all = Vec::new(alloc);
    read_piece(&mut reader, front, &mut all)?;
    read_piece(&mut reader, back, &mut all)?;
    read_end(&mut reader, &mut all)?;
    Ok(all)
}

/// Things heard as lines: the place of each, and its tree or its fault.
fn show_all(alloc: Global, all: &[Heard]) -> Result<String, AllocError> {
    let mut text = String::new(alloc);
    for heard in all {
        text.push_str(format!(in alloc; "{}-{}", heard.from, heard.to)?.as_str())?;
        show_what(alloc, &heard.what, &mut text)?;
        text.push('\n')?;
    }
    Ok(text)
}

fn show_what(alloc: Global, what: &What, text: &mut String) -> Result<(), AllocError> {
    match what {
        What::Tree(tree) => show_tree(tree, text),
        What::Bad(error) => text.push_str(format!(in alloc; " bad {}", error.number())?.as_str()),
        What::Unclosed => text.push_str(" unclosed"),
        What::Unread => text.push_str(" unread"),
    }
}

fn show_tree(tree: &Tree, text: &mut String) -> Result<(), AllocError> {
    text.push(' ')?;
    match tree {
        Tree::Word(token) => show_token(token, text)?,
        Tree::List(list) => {
            text.push('[')?;
            for tree in list.as_slice() {
                show_tree(tree, text)?;
            }
            text.push(']')?;
        }
    }
    Ok(())
}

/// A token by its kind and its text.
fn show_token(token: &Token, text: &mut String) -> Result<(), AllocError> {
    match token {
        Token::Symbol(name) => show_between("|", name, "|", text),
        Token::Keyword(bytes) => show_between("K", bytes, "", text),
        Token::Numeral(bytes) => show_between("N", bytes, "", text),
        Token::Decimal(bytes) => show_between("D", bytes, "", text),
        Token::Hexadecimal(bytes) => show_between("H", bytes, "", text),
        Token::Binary(bytes) => show_between("B", bytes, "", text),
        Token::Literal(bytes) => show_between("L|", bytes, "|", text),
    }
}

fn show_between(
    before: &str,
    bytes: &Text,
    after: &str,
    text: &mut String,
) -> Result<(), AllocError> {
    text.push_str(before)?;
    for byte in bytes.as_bytes() {
        text.push(*byte as char)?;
    }
    text.push_str(after)
}

/// What is heard is shown so.
fn is_heard(
    rt: &impl Abort,
    alloc: Global,
    all: &[Heard],
    want: &str,
    how: &str,
    at: usize,
) -> Result<(), Fail> {
    let got = show_all(alloc, all)?;
    assert_eq!(rt; got.as_str(), want, "{how} {at}");
    Ok(())
}

/// The bytes are heard so in pieces of this size.
fn hears_pieces(
    rt: &impl Abort,
    alloc: Global,
    limits: Limits,
    bytes: &[u8],
    size: usize,
    want: &str,
) -> Result<(), Fail> {
    let all = read_all(alloc, limits, bytes, size)?;
    is_heard(rt, alloc, all.as_slice(), want, "in pieces of", size)
}

/// The bytes are heard so, cut in two.
fn hears_cut(
    rt: &impl Abort,
    alloc: Global,
    limits: Limits,
    bytes: &[u8],
    cut: usize,
    want: &str,
) -> Result<(), Fail> {
    let all = read_cut(alloc, limits, bytes, cut)?;
    is_heard(rt, alloc, all.as_slice(), want, "cut at", cut)
}

/// The bytes are heard so: byte by byte, and in two pieces, cut at every place.
fn hears(
    rt: &impl Abort,
    alloc: Global,
    limits: Limits,
    bytes: &[u8],
    want: &str,
) -> Result<(), Fail> {
    hears_pieces(rt, alloc, limits, bytes, 1, want)?;
    for cut in 0..=bytes.len() {
        hears_cut(rt, alloc, limits, bytes, cut, want)?;
    }
    Ok(())
}

fn hears_table(
    rt: &impl Abort,
    alloc: Global,
    limits: Limits,
    table: &[(&[u8], &str)],
) -> Result<(), Fail> {
    for (bytes, want) in table {
        hears(rt, alloc, limits, bytes, want)?;
    }
    Ok(())
}

#[test]
fn test_hears_hostile_scripts(rt: HostRuntime) -> Result<(), Fail> {
    hears_table(&rt, rt.alloc(), SCRIPT_LIMITS, HEARD)
}

#[test]
fn test_hears_scripts_at_the_limits(rt: HostRuntime) -> Result<(), Fail> {
    let limits = Limits { depth: 3, bytes: 9 };
    hears_table(&rt, rt.alloc(), limits, HEARD_AT_LIMITS)
}

fn repeat(text: &mut String, part: &str, count: usize) -> Result<(), AllocError> {
    for _ in 0..count {
        text.push_str(part)?;
    }
    Ok(())
}

/// So many of one text, and then as many of another.
fn nested(alloc: Global, left: &str, right: &str, depth: usize) -> Result<String, AllocError> {
    let mut text = String::new(alloc);
    repeat(&mut text, left, depth)?;
    repeat(&mut text, right, depth)?;
    Ok(text)
}

/// Lists that lie so deep in one another, and what is heard.
fn hears_nested(rt: &impl Abort, alloc: Global, depth: usize, want: &str) -> Result<(), Fail> {
    let script = nested(alloc, "(", ")", depth)?;
    hears(rt, alloc, SCRIPT_LIMITS, script.as_bytes(), want)
}

#[test]
fn test_hears_two_hundred_lists_in_one_another(rt: HostRuntime) -> Result<(), Fail> {
    let shown = nested(rt.alloc(), " [", "]", 200)?;
    let want = format!(in rt.alloc(); "0-400{shown}\n")?;
    hears_nested(&rt, rt.alloc(), 200, want.as_str())?;
    hears_nested(&rt, rt.alloc(), 201, "0-402 bad 6\n")
}

/// A comment of every byte that doesn't end it, and a command behind it.
fn every_byte_in_a_comment(alloc: Global) -> Result<Vec<u8>, AllocError> {
    let mut bytes = Vec::new(alloc);
    bytes.push(b';')?;
    for byte in 0..=255u8 {
        if byte != b'\n' && byte != b'\r' {
            bytes.push(byte)?;
        }
    }
    bytes.extend_from_slice(b"\n(a)".as_slice())?;
    Ok(bytes)
}

#[test]
fn test_passes_every_byte_in_a_comment(rt: HostRuntime) -> Result<(), Fail> {
    let bytes = every_byte_in_a_comment(rt.alloc())?;
    let want = "256-259 [ |a|]\n";
    hears(&rt, rt.alloc(), SCRIPT_LIMITS, bytes.as_slice(), want)
}

const PIECES: &[u8] = b" (ab (c) d)x)1;\n(a 1b)(a(b(c)))(long-long-long-long)()z(u";

const PIECES_HEARD: &str =
    "1-11 [ |ab| [ |c|] |d|]\n11-12 bad 1\n12-13 bad 1\n13-14 bad 1\n16-22 bad 1\n22-31 bad 6\n31-52 bad 6\n52-54 []\n54-55 bad 1\n55-57 unclosed\n";

#[test]
fn test_reads_pieces_of_any_size(rt: HostRuntime) -> Result<(), Fail> {
    let limits = Limits {
        depth: 2,
        bytes: 20,
    };
    for size in 1..60 {
        hears_pieces(&rt, rt.alloc(), limits, PIECES, size, PIECES_HEARD)?;
    }
    Ok(())
}

/// A whole script, to its end.
fn read_script(reader: &mut Reader, script: &[u8], all: &mut Vec<Heard>) -> Result<(), Fail> {
    read_piece(reader, script, all)?;
    read_end(reader, all)
}

#[test]
fn test_begins_again_after_the_end(rt: HostRuntime) -> Result<(), Fail> {
    let mut reader = new_reader(rt.alloc(), Limits { depth: 1, bytes: 4 });
    let mut all = Vec::new(rt.alloc());
    read_script(&mut reader, b"(x", &mut all)?;
    read_script(&mut reader, b"(y)", &mut all)?;
    let want = "0-2 unclosed\n0-3 [ |y|]\n";
    is_heard(&rt, rt.alloc(), all.as_slice(), want, "scripts", 2)
}

fn list_of_one(alloc: Global) -> Result<TreeList, Memory> {
    let mut list = TreeList::new(alloc);
    list.push(Tree::Word(Token::Symbol(Text::new(alloc))))?;
    Ok(list)
}

#[test]
fn test_builds_a_list(rt: HostRuntime) -> Result<(), Fail> {
    let list = list_of_one(rt.alloc())?;
    is(&rt, list.as_slice().len(), 1);
    Ok(())
}
