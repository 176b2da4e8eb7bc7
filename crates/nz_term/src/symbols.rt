//! What a stored node is of, in few bytes.
ghost use Rattle.std.specs.Prelude.{◌≡◌, IfSome, IfNone, IfOk};
ghost use Rattle.std.specs.Cmp.{on_equiv, on_per, partial_equiv_from_equiv};
ghost use Rattle.std.specs.Cmp.Lexicographic.{bytes_decides, nat_list_eq_equiv};
ghost use Rattle.std.specs.Hash.{on_Alike, same_Alike};
ghost use Rattle.nz_term.specs.Leaves.{AreDistinctLeaves, AreKept, key_head};
ghost use Rattle.nz_term.specs.Symbols.{IsFoundSymbol, IsSymbolOf, are_same_symbol, detail_of, fed_symbol, kind_of, leaf_at, symbol_numbers};

use crate::heads::Operator;
use crate::leaves::{Key, Leaf};
use indexmap::IndexSet;
use nz_base::Memory;
use nz_spec::term::tells_heads;
use std::hash::{Hash, Hasher};

/// The leaf at a place of a table of leaves, or an operator. It takes 8 bytes.
#[derive(Clone, Copy, Debug)]
pub(crate) enum Symbol {
    Leaf(u32),
    Operator(Operator),
}

impl Symbol {
    /// A number that tells operators apart, whatever they are over, and from the leaves.
    fn kind(self) -> u8
        ensures kind { result ≡ kind_of self }
    {
        match self {
            Symbol::Leaf(_) => 0,
            Symbol::Operator(operator) => operator.kind(),
        }
    }

    /// The place of a leaf; the number of an operator's sort.
    fn detail(self) -> u32
        ensures detail { result ≡ detail_of self }
    {
        match self {
            Symbol::Leaf(place) => place,
            Symbol::Operator(operator) => u32::from(operator.sort().number()),
        }
    }
}

impl PartialEq for Symbol {
    ghost eq = { are_same_symbol };

    ghost laws = { on_per symbol_numbers (partial_equiv_from_equiv nat_list_eq_equiv) };

    fn eq(&self, other: &Symbol) -> bool {
        self.kind() == other.kind() && self.detail() == other.detail()
    }
}

impl Eq for Symbol {
    ghost laws = { on_equiv symbol_numbers nat_list_eq_equiv };
}

impl Hash for Symbol {
    ghost hash_input = { λ symbol. fed_symbol (symbol_numbers symbol) };

    ghost respects_eq = { (on_Alike symbol_numbers (same_Alike fed_symbol bytes_decides)).fed };

    fn hash<H: Hasher>(&self, state: &mut H) {
        state.write_u8(self.kind());
        state.write_u32(self.detail());
    }
}

/// The symbol of a head, whose leaf is put last where it isn't there.
pub(crate) fn put_symbol(leaves: &mut IndexSet<Leaf>, key: Key) -> Result<Symbol, Memory>
    requires distinct { AreDistinctLeaves leaves.old.keys }
    ensures symbol { IfOk result (IsSymbolOf leaves.new.keys (key_head key)) }
    ensures kept { AreKept leaves.old.keys leaves.new.keys }
    ensures distinct { AreDistinctLeaves leaves.new.keys }
{
    tells_heads();
    match key {
        Key::Leaf(leaf) => {
            let (place, _) = leaves.insert_full(leaf)?;
            leaf_symbol(place)
        }
        Key::Operator(operator) => Ok(Symbol::Operator(operator)),
    }
}

/// The symbol of a head, where its leaf is there.
pub(crate) fn found_symbol(leaves: &IndexSet<Leaf>, key: &Key) -> Result<Option<Symbol>, Memory>
    ensures symbol { IfOk result (IsFoundSymbol leaves.now.keys (key_head key.now)) }
{
    tells_heads();
    match key {
        Key::Leaf(leaf) => match leaves.get_index_of(leaf) {
            Some(place) => {
                let symbol = leaf_symbol(place)?;
                Ok(Some(symbol))
            }
            None => Ok(None),
        },
        Key::Operator(operator) => Ok(Some(Symbol::Operator(*operator))),
    }
}

/// The symbol of the leaf at a place. No table has so many leaves that this fails.
fn leaf_symbol(place: usize) -> Result<Symbol, Memory>
    ensures symbol { IfOk result (λ symbol. symbol ≡ leaf_at place) }
{
    match u32::try_from(place) {
        Ok(place) => Ok(Symbol::Leaf(place)),
        Err(_) => Err(Memory),
    }
}
