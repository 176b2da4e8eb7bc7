//! Lists of trees taken apart.
ghost use Rattle.std.specs.Prelude.{◌≡◌, IfSome, IfNone};
ghost use Rattle.nz_sexpr.specs.View.{token_view, view, seen};
ghost use Rattle.nz_script.specs.text.Tree.{leaf, trees, no_trees};
ghost use Rattle.nz_command.specs.Lists.{IsHeadless, IsNotOne, IsNotTwo, IsNotThree, IsShort};

use nz_sexpr::{Token, Tree};

/// The one tree.
pub(crate) fn only(list: &[Tree]) -> Option<&Tree>
    ensures one { IfSome result (λ tree. seen list.now ≡ trees (view tree.now) no_trees) }
    ensures none { IfNone result (IsNotOne (seen list.now)) }
{
    match list {
        [tree] => Some(tree),
        _ => None,
    }
}

/// The two trees.
pub(crate) fn pair(list: &[Tree]) -> Option<(&Tree, &Tree)>
    ensures two { IfSome result (λ p. seen list.now ≡ trees (view p.0.now) (trees (view p.1.now) no_trees)) }
    ensures none { IfNone result (IsNotTwo (seen list.now)) }
{
    match list {
        [first, second] => Some((first, second)),
        _ => None,
    }
}

/// The three trees.
pub(crate) fn triple(list: &[Tree]) -> Option<(&Tree, &Tree, &Tree)>
    ensures three { IfSome result (λ p. seen list.now ≡ trees (view p.0.now) (trees (view p.1.now) (trees (view p.2.now) no_trees))) }
    ensures none { IfNone result (IsNotThree (seen list.now)) }
{
    match list {
        [first, second, third] => Some((first, second, third)),
        _ => None,
    }
}

/// The token that a list begins with, and the trees after it.
pub(crate) fn headed(list: &[Tree]) -> Option<(&Token, &[Tree])>
    ensures head { IfSome result (λ p. seen list.now ≡ trees (leaf (token_view p.0.now)) (seen p.1.now)) }
    ensures none { IfNone result (IsHeadless (seen list.now)) }
{
    let (first, rest) = list.split_first()?;
    match first {
        Tree::Word(token) => Some((token, rest)),
        Tree::List(_) => None,
    }
}

/// The first two trees, and those after them.
pub(crate) fn first_two(list: &[Tree]) -> Option<(&Tree, &Tree, &[Tree])>
    ensures two { IfSome result (λ p. seen list.now ≡ trees (view p.0.now) (trees (view p.1.now) (seen p.2.now))) }
    ensures none { IfNone result (IsShort (seen list.now)) }
{
    let (first, others) = list.split_first()?;
    let (second, others) = others.split_first()?;
    Some((first, second, others))
}
