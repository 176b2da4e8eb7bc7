//! Numbers and bounds that look random.
use crate::numbers::delta;
use crate::system::System;
use nz_base::Memory;
use nz_delta::Delta;
use nz_trail::{Side, Var};

/// The next of numbers that look random.
pub(crate) fn next(seed: &mut u64) -> u64 {
    *seed = seed
        .wrapping_mul(6364136223846793005)
        .wrapping_add(1442695040888963407);
    *seed >> 33
}

/// One of so many integers, of which this is the least.
pub(crate) fn integer(seed: &mut u64, least: i128, count: u64) -> i128 {
    let above = next(seed) % count.max(1);
    (above as i128).saturating_add(least)
}

/// A side.
fn side(seed: &mut u64) -> Side {
    if next(seed) % 2 == 0 {
        Side::Lower
    } else {
        Side::Upper
    }
}

/// Gives a form a bound c + k*δ, where c is one of so many integers, of which this is the least.
pub(crate) fn give(
    system: &mut System<Delta>,
    seed: &mut u64,
    var: Var,
    least: i128,
    count: u64,
) -> Result<(), Memory> {
    let side = side(seed);
    let c = integer(seed, least, count);
    let k = integer(seed, -1, 3);
    let value = delta(c, k).ok_or(Memory)?;
    system.give(var, side, value)?;
    Ok(())
}
