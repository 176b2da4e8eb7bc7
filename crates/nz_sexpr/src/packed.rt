//! Trees as blocks of bytes, for what is kept of commands that were answered. Short commands are most of a long script, and as a
//! tree each takes many times its bytes.
ghost use Rattle.std.specs.Prelude.{◌≡◌, ◌∷◌, [], ◌++◌, IfOk, OnOk};
ghost use Rattle.nz_script.specs.text.Tree.{node};
ghost use Rattle.nz_sexpr.specs.Packed.{escaped, escaped_byte, packed, packed_token, packed_tree, packed_trees, packed_what_view};
ghost use Rattle.nz_sexpr.specs.View.{seen, token_view, view, what_view};

use crate::heard::{Heard, What};
use crate::tree::{Token, Tree};
use nz_base::{Error, Memory, Text};
use std::alloc::Global;

/// Bytes below this one are marks. Where a text has one of them, it stands behind an escape.
const LEAST_UNMARKED: u8 = 10;

const ESCAPE: u8 = 0;

const OPEN: u8 = 1;

const CLOSE: u8 = 2;

const SYMBOL: u8 = 3;

const KEYWORD: u8 = 4;

const NUMERAL: u8 = 5;

const DECIMAL: u8 = 6;

const HEXADECIMAL: u8 = 7;

const BINARY: u8 = 8;

const LITERAL: u8 = 9;

/// The room that is made for the bytes of a tree before its size is known. Most trees take no more.
const ROOM: usize = 64;

/// A tree as bytes: the text of each token, and behind it the mark of its kind; the trees of a list between two marks, but those
/// of the whole tree without.
#[derive(Debug, Drop)]
pub struct Packed {
    bytes: Text,
}

impl Packed {
    ghost use Rattle.nz_sexpr.specs.Packed.{packed_view, unpacked};

    /// The tree, packed.
    ///
    /// # Errors
    ///
    /// `Memory` where there is none.
    pub fn new(alloc: Global, tree: &Tree) -> Result<Packed, Memory>
        ensures tree { IfOk result (λ p. packed_view p ≡ view tree.now) }
    {
        let mut bytes = Vec::with_capacity(alloc, ROOM)?;
        pack(&mut bytes, tree)?;
        let text = Text::from_slice(alloc, bytes.as_slice())?;
        Ok(Packed { bytes: text })
    }

    /// The bytes.
    pub fn as_bytes(&self) -> &[u8]
        ensures tree { unpacked result.now ≡ packed_view self.now }
    {
        self.bytes.as_bytes()
    }
}

/// What a thing heard is, as it is kept.
#[derive(Debug, Drop)]
pub enum PackedWhat {
    Tree(Packed),
    Bad(Error),
    Unclosed,
    Unread,
}

/// A thing heard, as it is kept.
#[derive(Debug, Drop)]
pub struct PackedHeard {
    pub from: u64,
    pub to: u64,
    pub what: PackedWhat,
}

impl PackedHeard {
    ghost use Rattle.nz_sexpr.specs.Packed.{packed_heard_view};
    ghost use Rattle.nz_sexpr.specs.View.{heard_view};

    /// The thing heard, packed.
    ///
    /// # Errors
    ///
    /// `Memory` where there is none.
    pub fn new(alloc: Global, heard: &Heard) -> Result<PackedHeard, Memory>
        ensures heard { IfOk result (λ p. packed_heard_view p ≡ heard_view heard.now) }
    {
        let what = packed_what(alloc, &heard.what)?;
        Ok(PackedHeard {
            from: heard.from,
            to: heard.to,
            what,
        })
    }
}

fn packed_what(alloc: Global, what: &What) -> Result<PackedWhat, Memory>
    ensures what { IfOk result (λ p. packed_what_view p ≡ what_view what.now) }
{
    match what {
        What::Tree(tree) => Ok(PackedWhat::Tree(Packed::new(alloc, tree)?)),
        What::Bad(error) => Ok(PackedWhat::Bad(*error)),
        What::Unclosed => Ok(PackedWhat::Unclosed),
        What::Unread => Ok(PackedWhat::Unread),
    }
}

/// Puts the bytes of a whole tree at the end.
fn pack(bytes: &mut Vec<u8>, tree: &Tree) -> Result<(), Memory>
    ensures packed { OnOk result (bytes.new.items ≡ bytes.old.items ++ packed (view tree.now)) }
{
    match tree {
        Tree::Word(token) => {
            // A list that stays open: a token alone.
            bytes.push(OPEN)?;
            pack_token(bytes, token)
        }
        Tree::List(list) => pack_trees(bytes, list.as_slice()),
    }
}

/// Puts the bytes of a tree in a list at the end. The reader bounds how deep it nests.
#[cycle(tree)]
fn pack_tree(bytes: &mut Vec<u8>, tree: &Tree) -> Result<(), Memory>
    ensures packed { OnOk result (bytes.new.items ≡ bytes.old.items ++ packed_tree (view tree.now)) }
{
    match tree {
        Tree::Word(token) => pack_token(bytes, token),
        Tree::List(list) => pack_list(bytes, list.as_slice()),
    }
}

/// Puts the bytes of a list of these trees at the end.
#[cycle(tree)]
fn pack_list(bytes: &mut Vec<u8>, trees: &[Tree]) -> Result<(), Memory>
    ensures packed { OnOk result (bytes.new.items ≡ bytes.old.items ++ packed_tree (node (seen trees.now))) }
{
    bytes.push(OPEN)?;
    pack_trees(bytes, trees)?;
    bytes.push(CLOSE)?;
    Ok(())
}

/// Puts the bytes of these trees at the end.
#[cycle(tree)]
fn pack_trees(bytes: &mut Vec<u8>, trees: &[Tree]) -> Result<(), Memory>
    ensures packed { OnOk result (bytes.new.items ≡ bytes.old.items ++ packed_trees (seen trees.now)) }
{
    for tree in trees {
        pack_tree(bytes, tree)?;
    }
    Ok(())
}

/// Puts the bytes of a token at the end.
fn pack_token(bytes: &mut Vec<u8>, token: &Token) -> Result<(), Memory>
    ensures packed { OnOk result (bytes.new.items ≡ bytes.old.items ++ packed_token (token_view token.now)) }
{
    match token {
        Token::Symbol(text) => pack_text(bytes, text.as_bytes(), SYMBOL),
        Token::Keyword(text) => pack_text(bytes, text.as_bytes(), KEYWORD),
        Token::Numeral(text) => pack_text(bytes, text.as_bytes(), NUMERAL),
        Token::Decimal(text) => pack_text(bytes, text.as_bytes(), DECIMAL),
        Token::Hexadecimal(text) => pack_text(bytes, text.as_bytes(), HEXADECIMAL),
        Token::Binary(text) => pack_text(bytes, text.as_bytes(), BINARY),
        Token::Literal(text) => pack_text(bytes, text.as_bytes(), LITERAL),
    }
}

/// Puts a text and the mark behind it at the end.
fn pack_text(bytes: &mut Vec<u8>, text: &[u8], mark: u8) -> Result<(), Memory>
    ensures packed { OnOk result (bytes.new.items ≡ bytes.old.items ++ (escaped text.now ++ mark ∷ [])) }
{
    for byte in text {
        pack_byte(bytes, *byte)?;
    }
    bytes.push(mark)?;
    Ok(())
}

/// Puts a byte of a text at the end.
fn pack_byte(bytes: &mut Vec<u8>, byte: u8) -> Result<(), Memory>
    ensures packed { OnOk result (bytes.new.items ≡ bytes.old.items ++ escaped_byte byte) }
{
    if byte < LEAST_UNMARKED {
        bytes.push(ESCAPE)?;
    }
    bytes.push(byte)?;
    Ok(())
}
