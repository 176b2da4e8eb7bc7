//! Bounds as a plain list that is scanned, and a sequence of numbers that looks random.
use nz_delta::Delta;
use nz_trail::{AssertOutcome, Limit, Side};

/// A bound c + k*δ that was asserted.
#[derive(Clone, Copy, Debug, PartialEq, Eq)]
pub struct Plain {
    pub var: usize,
    pub side: Side,
    pub value: (i128, i128),
    pub reason: usize,
}

/// Whether the first is tighter than the second on this side.
fn is_tighter(side: Side, x: (i128, i128), y: (i128, i128)) -> bool {
    match side {
        Side::Lower => x > y,
        Side::Upper => x < y,
    }
}

/// The tightest bound of a variable on a side, the first one of its value.
pub fn tightest(list: &[Plain], var: usize, side: Side) -> Option<((i128, i128), usize)> {
    let mut found: Option<((i128, i128), usize)> = None;
    for b in list {
        if b.var == var && b.side == side {
            let is_first = match found {
                Some((value, _)) => is_tighter(side, b.value, value),
                None => true,
            };
            if is_first {
                found = Some((b.value, b.reason));
            }
        }
    }
    found
}

/// What comes of a bound, where the list has those before it.
pub fn expected(list: &[Plain], b: Plain) -> AssertOutcome {
    if let Some((value, _)) = tightest(list, b.var, b.side) {
        if !is_tighter(b.side, b.value, value) {
            return AssertOutcome::Kept;
        }
    }
    let (other, low_side) = match b.side {
        Side::Lower => (tightest(list, b.var, Side::Upper), true),
        Side::Upper => (tightest(list, b.var, Side::Lower), false),
    };
    match other {
        Some((value, reason)) if low_side && b.value > value => AssertOutcome::Clash(
            b.reason, reason,
        ),
        Some((value, reason)) if !low_side && b.value < value => AssertOutcome::Clash(
            b.reason, reason,
        ),
        _ => AssertOutcome::Tighter,
    }
}

/// A bound that stands, in whole numbers.
pub fn plainly(limit: Option<Limit<Delta>>) -> Option<((i128, i128), usize)> {
    match limit {
        Some(limit) => Some(((limit.value.c.num(), limit.value.k.num()), limit.reason)),
        None => None,
    }
}

/// The next number of a sequence that looks random.
pub fn next(seed: &mut u64) -> u64 {
    *seed = seed
        .wrapping_mul(6364136223846793005)
        .wrapping_add(1442695040888963407);
    *seed >> 33
}

/// A bound that looks random, of one of three variables.
pub fn random_bound(seed: &mut u64, reason: usize) -> Plain {
    let var = (next(seed) % 3) as usize;
    let side = if next(seed) % 2 == 0 {
        Side::Lower
    } else {
        Side::Upper
    };
    let c = (next(seed) % 9) as i128 - 4;
    let k = (next(seed) % 3) as i128 - 1;
    Plain {
        var,
        side,
        value: (c, k),
        reason,
    }
}
