//! Tokens and trees of a script (SMT-LIB 2.6, sections 3.1 and 3.2).
ghost use Rattle.std.specs.Prelude.{◌≡◌, [], ◌∷◌, ◌++◌, None, IfOk, OnOk, OnErr, IfSome, IfNone};
ghost use Rattle.nz_script.specs.text.Tree.{symbol, symbol_name};

use nz_base::{Memory, Text};
use std::alloc::Global;

/// A token of a script. A symbol is told by its name and a string literal by its text, however they were spelled; the
/// others are told by their bytes.
#[derive(Debug, Drop)]
pub enum Token {
    Symbol(Text),
    Keyword(Text),
    Numeral(Text),
    Decimal(Text),
    Hexadecimal(Text),
    Binary(Text),
    /// A string literal.
    Literal(Text),
}

impl Token {
    ghost use Rattle.nz_sexpr.specs.View.{token_view};

    /// The name of a symbol.
    pub fn as_symbol(&self) -> Option<&Text>
        ensures name { IfSome result (λ name. token_view self.now ≡ symbol name.now) }
        ensures other { IfNone result (symbol_name (token_view self.now) ≡ None) }
    {
        match self {
            Token::Symbol(name) => Some(name),
            _ => None,
        }
    }
}

/// One token, or a list of trees between parentheses.
#[cycle(tree)]
#[derive(Debug, Drop)]
pub enum Tree {
    Word(Token),
    List(TreeList),
}

/// The trees of a list, in order.
#[cycle(tree)]
#[derive(Debug, Drop)]
pub struct TreeList {
    trees: Vec<Tree>,
}

impl TreeList {
    ghost use Rattle.nz_sexpr.specs.View.{view, items, list_view};

    /// A list without trees. Takes no memory.
    pub fn new(alloc: Global) -> Self
        ensures empty { list_view result ≡ [] }
    {
        TreeList {
            trees: Vec::new(alloc),
        }
    }

    /// Adds a tree at the end.
    ///
    /// # Errors
    ///
    /// `Memory` where there is none; the list is as before.
    pub fn push(&mut self, tree: Tree) -> Result<(), Memory>
        ensures ok { OnOk result (list_view self.new ≡ list_view self.old ++ view tree ∷ []) }
        ensures err { OnErr result (list_view self.new ≡ list_view self.old) }
    {
        self.trees.push(tree)?;
        Ok(())
    }

    /// Takes all trees out, into a list of their exact size. Keeps the memory, for trees to come.
    ///
    /// # Errors
    ///
    /// `Memory` where there is none.
    pub(crate) fn take(&mut self) -> Result<TreeList, Memory>
        ensures taken { IfOk result (λ l. list_view l ≡ list_view self.old) }
    {
        let trees = self.trees.split_off(0)?;
        Ok(TreeList { trees })
    }

    /// Leaves no tree. Keeps the memory, for trees to come.
    pub(crate) fn clear(&mut self)
        ensures empty { list_view self.new ≡ [] }
    {
        self.trees.clear();
    }

    /// The trees.
    pub fn as_slice(&self) -> &[Tree]
        ensures trees { result.now ≡ items self.now }
    {
        self.trees.as_slice()
    }
}
