//! A fraction that can stand for δ.
ghost use Rattle.std.specs.Prelude.{◌≡◌, IfOk, map, [], ◌∷◌, pos};
ghost use Rattle.nz_fractions.specs.Fraction.{outcome, Difference, Quotient, Fraction, whole, first_wide, ◌<ℚ◌, ◌≤ℚ◌, fraction_min};
ghost use Rattle.nz_spec.specs.numbers.Infinitesimal.{AreOrdered, AreOrderedAt, IsLeastLimit, limit, limits, limit_operations, least_from, chosen_delta, delta_operations};
ghost use Rattle.nz_delta.specs.Refused.{refused};
ghost use Rattle.nz_delta.specs.Pairs.{pair_of};

use crate::delta::Delta;
use nz_frac::{Frac, Wide};
use nz_spec::infinitesimal::chosen_deltas_serve;

/// Where δ turns `low` and `high` round: (d-c)/(k-l) for c + k*δ and d + l*δ, with k above l.
fn limit_of(low: &Delta, high: &Delta) -> Result<Frac, Wide>
    requires { high.now.k <ℚ low.now.k }
    ensures limit { IfOk result (λ e. e ≡ limit (pair_of (low.now, high.now))) }
    ensures wide { refused result ≡ first_wide (limit_operations (pair_of (low.now, high.now))) }
{
    let rise = high.c.sub(low.c)?;
    let fall = low.k.sub(high.k)?;
    rise.div(fall)
}

/// The lesser of two, the first where they are equal.
fn lesser(a: Frac, b: Frac) -> Frac
    ensures { result ≡ fraction_min a b }
{
    if b < a { b } else { a }
}

/// What one more pair leaves of a fraction for δ.
fn tightened(delta: Frac, pair: &(Delta, Delta)) -> Result<Frac, Wide>
    ensures least { IfOk result (λ e. e ≡ least_from delta (limits (pair_of pair.now ∷ []))) }
    ensures wide { refused result ≡ first_wide (delta_operations (pair_of pair.now ∷ [])) }
{
    if pair.1.k < pair.0.k {
        match limit_of(&pair.0, &pair.1) {
            Ok(limit) => Ok(lesser(delta, limit)),
            Err(wide) => Err(wide),
        }
    } else {
        Ok(delta)
    }
}

/// The least of 1 and the limits of the pairs: it and every smaller fraction above 0 keep the pairs in order where they stand
/// for δ. The first Wide operation of the limits is named.
pub fn choose_delta(pairs: &[(Delta, Delta)]) -> Result<Frac, Wide>
    requires { AreOrdered (map pair_of pairs.now) }
    ensures value { IfOk result (λ e. e ≡ chosen_delta (map pair_of pairs.now)) }
    ensures least { IfOk result (λ e. IsLeastLimit (map pair_of pairs.now) e) }
    ensures above_zero { IfOk result (λ e. whole (pos 0) <ℚ e) }

    // This fraction and each smaller one above 0 keep the pairs in order.
    ensures keeps_order { IfOk result (λ e. (d : Fraction) → whole (pos 0) <ℚ d → d ≤ℚ e → AreOrderedAt (map pair_of pairs.now) d) }
    ensures wide { refused result ≡ first_wide (delta_operations (map pair_of pairs.now)) }
{
    chosen_deltas_serve();
    let mut delta = Frac::whole(1);
    for pair in pairs {
        delta = tightened(delta, pair)?;
    }
    Ok(delta)
}
