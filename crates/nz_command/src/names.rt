//! Names: symbols that are no reserved words (SMT-LIB 2.6, section 3.1).
ghost use Rattle.std.specs.Prelude.{◌≡◌, bytes_eq, map, option_map};
ghost use Rattle.std.specs.List.{list_any};
ghost use Rattle.nz_sexpr.specs.View.{token_view, view};
ghost use Rattle.nz_script.specs.commands.Parse as parse;
ghost use Rattle.nz_command.specs.Requests.{entry};

use nz_base::Text;
use nz_sexpr::{Token, Tree};

/// Words that no symbol may be.
const RESERVED_WORDS: [&[u8]; 8] = [
    b"!", b"_", b"as", b"exists", b"forall", b"let", b"match", b"par",
];

/// The name is one of these words.
pub fn is_one_of(words: &[&[u8]], name: &[u8]) -> bool
    ensures listed { result ≡ list_any (λ word. bytes_eq name.now word.now) words.now }
{
    words.iter().any(|word| name == *word)
}

/// The name that a symbol is, unless it is a reserved word.
pub(crate) fn free_name(name: &Text) -> Option<&Text>
    ensures name { option_map (λ x. x.now) result ≡ parse.free_name name.now }
{
    if is_one_of(&RESERVED_WORDS, name.as_bytes()) {
        None
    } else {
        Some(name)
    }
}

/// The name that a token is.
pub(crate) fn token_name(token: &Token) -> Option<&Text>
    ensures name { option_map (λ x. x.now) result ≡ parse.token_name (token_view token.now) }
{
    match token {
        Token::Symbol(name) => free_name(name),
        _ => None,
    }
}

/// The name that a tree is.
pub(crate) fn name_of(tree: &Tree) -> Option<&Text>
    ensures name { option_map (λ x. x.now) result ≡ parse.name_of (view tree.now) }
{
    match tree {
        Tree::Word(token) => token_name(token),
        Tree::List(_) => None,
    }
}

/// The keyword that a tree is.
pub(crate) fn keyword_of(tree: &Tree) -> Option<&Text>
    ensures keyword { option_map (λ x. x.now) result ≡ parse.keyword_of (view tree.now) }
{
    match tree {
        Tree::Word(Token::Keyword(name)) => Some(name),
        _ => None,
    }
}

/// What stands in a table with this word.
pub(crate) fn listed_with<T: Copy>(table: &[(&[u8], T)], word: &[u8]) -> Option<T>
    ensures listed { result ≡ parse.listed_with (map entry table.now) word.now }
{
    for (listed, found) in table {
        if word == *listed {
            return Some(*found);
        }
    }
    None
}
