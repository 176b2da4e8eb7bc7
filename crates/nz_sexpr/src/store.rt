//! What is kept of an open command while it is read: its trees so far, and the text of the token that is being read.
ghost use Rattle.std.specs.Prelude.{◌≡◌, List, [], ◌∷◌, ◌++◌, Some, None, IfSome, IsSomeAnd, OnOk};
ghost use Rattle.nz_script.specs.text.Tree as text;
ghost use Rattle.nz_script.specs.text.Reading.{trees_from, with_trees, with_closed};
ghost use Rattle.nz_sexpr.specs.Words.{token_by};
ghost use Rattle.nz_sexpr.specs.View.{token_view};

use crate::tree::{Token, Tree, TreeList};
use crate::words::TokenKind;
use nz_base::{Memory, Text};
use std::alloc::Global;
use std::mem;

/// The open lists of a command and a token in it, while they are worth keeping.
#[derive(Debug, Drop)]
pub(crate) struct Store {
    alloc: Global,
    /// The token's text so far.
    text: Text,
    /// The trees so far of the innermost list.
    inner: TreeList,
    /// Those of the lists around it, the outermost first.
    outer: Vec<TreeList>,
    /// A list that closed, for the next one that opens: so a list takes memory once, of its exact size, when it closes.
    spare: TreeList,
    /// Whether anything is kept.
    keeps: bool,
}

impl Store {
    ghost use Rattle.nz_sexpr.specs.View.{list_view};
    ghost use Rattle.nz_sexpr.specs.Store.{OpenCommand, kept_of, Keeps};

    pub(crate) fn new(alloc: Global) -> Self
        ensures { kept_of result ≡ None }
    {
        Store {
            alloc,
            text: Text::new(alloc),
            inner: TreeList::new(alloc),
            outer: Vec::new(alloc),
            spare: TreeList::new(alloc),
            keeps: false,
        }
    }

    /// A command opens.
    pub(crate) fn begin(&mut self)
        ensures { kept_of self.new ≡ Some (record { text = []; levels = [] ∷ [] }) }
    {
        self.text.clear();
        self.inner.clear();
        self.outer.clear();
        self.keeps = true;
    }

    /// Keeps nothing more.
    pub(crate) fn stop(&mut self)
        ensures { kept_of self.new ≡ None }
    {
        let alloc = self.alloc;
        *self = Store::new(alloc);
    }

    /// The token's text goes on.
    pub(crate) fn extend_text(&mut self, run: &[u8])
        ensures { Keeps (kept_of self.old) (kept_of self.new) (λ (k : OpenCommand). record k { text = k.text ++ run.now }) }
    {
        if self.keeps && self.text.push_slice(run).is_err() {
            self.stop();
        }
    }

    /// The token ends, and is of this kind.
    pub(crate) fn end_token(&mut self, kind: TokenKind)
        ensures { Keeps (kept_of self.old) (kept_of self.new) (λ (k : OpenCommand). record { text = []; levels = with_trees (text.leaf (token_by kind k.text) ∷ []) k.levels }) }
    {
        if self.keeps {
            let text = mem::replace(&mut self.text, Text::new(self.alloc));
            if self.inner.push(Tree::Word(token(kind, text))).is_err() {
                self.stop();
            }
        }
    }

    /// A list opens in the innermost one.
    pub(crate) fn open(&mut self)
        ensures { Keeps (kept_of self.old) (kept_of self.new) (λ (k : OpenCommand). record k { levels = [] ∷ k.levels }) }
    {
        if self.keeps {
            let mut opened = mem::replace(&mut self.spare, TreeList::new(self.alloc));
            opened.clear();
            let outer = mem::replace(&mut self.inner, opened);
            if self.outer.push(outer).is_err() {
                self.stop();
            }
        }
    }

    /// A list closes, within another.
    pub(crate) fn close(&mut self)
        ensures { Keeps (kept_of self.old) (kept_of self.new) (λ (k : OpenCommand). record k { levels = with_closed k.levels }) }
    {
        if self.keeps {
            match self.outer.pop() {
                Some(outer) => {
                    if self.close_in(outer).is_err() {
                        self.stop();
                    }
                }
                None => self.stop(),
            }
        }
    }

    /// Puts the innermost list at the end of this one, which is then the innermost.
    fn close_in(&mut self, outer: TreeList) -> Result<(), Memory>
        ensures kept { OnOk result (self.new ≡ record self.old { inner = self.new.inner; spare = self.new.spare }) }
        ensures closed { OnOk result (list_view self.new.inner ≡ list_view outer ++ text.node (trees_from (list_view self.old.inner)) ∷ []) }
    {
        let list = self.inner.take()?;
        self.spare = mem::replace(&mut self.inner, outer);
        self.inner.push(Tree::List(list))
    }

    /// The command closes: its own list, where it was kept.
    pub(crate) fn end(&mut self) -> Option<TreeList>
        ensures kept { IfSome result (λ l. IsSomeAnd (kept_of self.old) (λ (k : OpenCommand). (outer : List (List text.Tree)) × (k.levels ≡ list_view l ∷ outer))) }
        ensures ended { kept_of self.new ≡ None }
    {
        if self.keeps {
            self.keeps = false;
            self.inner.take().ok()
        } else {
            None
        }
    }
}

/// The token of this kind and text.
fn token(kind: TokenKind, text: Text) -> Token
    ensures { token_view result ≡ token_by kind text }
{
    match kind {
        TokenKind::Symbol => Token::Symbol(text),
        TokenKind::Keyword => Token::Keyword(text),
        TokenKind::Numeral => Token::Numeral(text),
        TokenKind::Decimal => Token::Decimal(text),
        TokenKind::Hexadecimal => Token::Hexadecimal(text),
        TokenKind::Binary => Token::Binary(text),
        TokenKind::Literal => Token::Literal(text),
    }
}
