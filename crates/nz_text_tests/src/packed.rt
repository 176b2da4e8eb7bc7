//! Of `nz_sexpr` and `nz_reply`: what is kept of things heard.
use crate::checks::{holds, is, is_bytes};
use crate::sexpr::first_heard;
use nz_base::{Error, Memory, Text};
use nz_reply::Kept;
use nz_sexpr::{Heard, Packed, PackedHeard, PackedWhat, Token, Tree, What};
use std::alloc::Global;
use std::process::Abort;
use std::test::Fail;

/// How many bytes an entry of the journal may have: of a short command it is all that is kept.
const ENTRY: usize = 104;

fn pack(alloc: Global, heard: &Heard) -> Result<PackedHeard, Memory> {
    PackedHeard::new(alloc, heard)
}

/// What is heard first in a script, packed.
fn pack_first(alloc: Global, script: &[u8]) -> Result<PackedHeard, Fail> {
    match first_heard(alloc, script) {
        Some(heard) => Ok(pack(alloc, &heard)?),
        None => Err(Fail::from("a command")),
    }
}

/// A tree is packed, and so.
fn is_packed(rt: &impl Abort, what: &PackedWhat, want: &[u8]) {
    match what {
        PackedWhat::Tree(tree) => is_bytes(rt, tree.as_bytes(), want),
        _ => holds(rt, false, "a tree"),
    }
}

#[test]
fn test_a_command_is_packed(rt: HostRuntime) -> Result<(), Fail> {
    let script = b" (assert (or p |\t|) () :k 1 1.5 #xF #b1 \"s\")";
    let packed = pack_first(rt.alloc(), script)?;
    is(&rt, packed.from, 1);
    is(&rt, packed.to, script.len() as u64);
    // Marks behind the tokens, and around the lists within; a tab is escaped.
    let bytes =
        b"assert\x03\x01or\x03p\x03\x00\t\x03\x02\x01\x02:k\x041\x051.5\x06#xF\x07#b1\x08s\x09";
    is_packed(&rt, &packed.what, bytes);
    Ok(())
}

fn numeral(alloc: Global, digits: &[u8]) -> Result<Tree, Memory> {
    Ok(Tree::Word(Token::Numeral(Text::from_slice(alloc, digits)?)))
}

fn pack_tree(alloc: Global, tree: &Tree) -> Result<Packed, Memory> {
    Packed::new(alloc, tree)
}

#[test]
fn test_a_token_alone_is_packed(rt: HostRuntime) -> Result<(), Fail> {
    let packed = pack_tree(rt.alloc(), &numeral(rt.alloc(), b"12")?)?;
    is_bytes(&rt, packed.as_bytes(), b"\x0112\x05");
    Ok(())
}

#[test]
fn test_what_is_refused_is_kept(rt: HostRuntime) -> Result<(), Fail> {
    let heard = Heard {
        from: 3,
        to: 5,
        what: What::Bad(Error::Limit),
    };
    let packed = pack(rt.alloc(), &heard)?;
    holds(
        &rt,
        matches!(packed.what, PackedWhat::Bad(Error::Limit)),
        "the fault",
    );
    Ok(())
}

#[test]
fn test_an_entry_is_small(rt: HostRuntime) -> Result<(), Fail> {
    holds(&rt, size_of::<Kept>() <= ENTRY, "few bytes");
    Ok(())
}
