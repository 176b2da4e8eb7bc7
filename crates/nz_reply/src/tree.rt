//! Trees in their normal spelling: one space between neighbours, symbols and string literals as they are told.
ghost use Rattle.nz_sexpr.specs.View.{token_view, view};
ghost use Rattle.nz_script.specs.replies.Reply.{token_text, tree_text};
ghost use Rattle.nz_reply.specs.Trees.{space_before};

use crate::symbol::{Literal, Symbol};
use crate::write::{Spell, WriteFault};
use nz_base::Sink;
use nz_sexpr::{Token, Tree};

impl Spell for Token {
    ghost text = { λ t. token_text (token_view t) };

    fn write<K: Sink>(&self, sink: &mut K) -> Result<(), WriteFault> {
        match self {
            Token::Symbol(name) => Symbol(name.as_bytes()).write(sink),
            Token::Keyword(bytes) => bytes.as_bytes().write(sink),
            Token::Numeral(bytes) => bytes.as_bytes().write(sink),
            Token::Decimal(bytes) => bytes.as_bytes().write(sink),
            Token::Hexadecimal(bytes) => bytes.as_bytes().write(sink),
            Token::Binary(bytes) => bytes.as_bytes().write(sink),
            Token::Literal(text) => Literal(text.as_bytes()).write(sink),
        }
    }
}

impl Spell for Tree {
    ghost text = { λ t. tree_text (view t) };

    // The reader bounds how deep a tree nests.
    fn write<K: Sink>(&self, sink: &mut K) -> Result<(), WriteFault> {
        match self {
            Tree::Word(token) => token.write(sink),
            Tree::List(list) => {
                let trees = list.as_slice();
                "(".write(sink)?;
                for index in 0..trees.len() {
                    let tree = &trees[index];
                    SpaceBefore(index).write(sink)?;
                    tree.write(sink)?;
                }
                ")".write(sink)
            }
        }
    }
}

/// The space before the text at this place of a list; none before the first.
#[derive(Drop)]
pub(crate) struct SpaceBefore(pub(crate) usize);

impl Spell for SpaceBefore {
    ghost text = { λ place. space_before place.0 };

    fn write<K: Sink>(&self, sink: &mut K) -> Result<(), WriteFault> {
        if self.0 == 0 { Ok(()) } else { " ".write(sink) }
    }
}
