//! Whether what a check assumes denies itself.
ghost use Rattle.std.specs.Prelude.{◌≡◌, Bool, true, false, not, Some, IfOk};
ghost use Rattle.nz_term.specs.TermLits.{AreConsistent};
ghost use Rattle.nz_session.specs.Assumed.{DenyEachOther};

use nz_base::Memory;
use nz_term::TermLit;
use std::alloc::Global;
use std::collections::HashMap;

/// None of these literals is the negation of another.
pub(crate) fn are_consistent(alloc: Global, literals: &[TermLit]) -> Result<bool, Memory>
    ensures yes { IfOk result (λ b. b ≡ true → AreConsistent literals.now) }
    ensures no { IfOk result (λ b. b ≡ false → DenyEachOther literals.now) }
{
    let mut signs = HashMap::new(alloc);
    for literal in literals {
        let before = signs.insert(literal.term, literal.sign)?;
        if is_denied(before, literal.sign) {
            return Ok(false);
        }
    }
    Ok(true)
}

/// A term has had the other sign before.
fn is_denied(before: Option<bool>, sign: bool) -> bool
    ensures denied { result ≡ true → before ≡ Some (not sign) }
    ensures agrees { result ≡ false → (other : Bool) → before ≡ Some other → other ≡ sign }
{
    match before {
        Some(other) => other != sign,
        None => false,
    }
}
