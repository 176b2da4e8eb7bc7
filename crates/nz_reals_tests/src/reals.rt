//! What a theory makes of bounds over rows: clashes, and what comes after literals are taken back.

use crate::acts::{Act, run};
use crate::system::Row;
use std::test::Fail;

const ROWS: &[Row] = &[
    Row([1, -1, 0], 0), // 1: x <= y
    Row([0, 1, -1], 0), // 2: y <= z
    Row([-1, 0, 1], -1), // 3: z <= x - 1
    Row([1, 1, 1], 3), // 4: x + y + z <= 3
    Row([-1, 0, 0], -2), // 5: x >= 2
    Row([1, 0, 0], 1), // 6: x <= 1
    Row([0, 1, 0], 100), // 7: y <= 100
    Row([1, 0, -1], 0), // 8: x <= z
    Row([1, 0, 0], 5), // 9: x <= 5
    Row([2, 3, 0], 1), // 10: 2*x + 3*y <= 1
    Row([0, -2, 0], 1), // 11: y >= -1/2
];

const CLASHES: &[Act] = &[
    Act::Tell(7),
    Act::Tell(1),
    Act::Tell(2),
    Act::Told(3),
    Act::Feasible(&[7, 1, 2, 8]),
    // The sum of 1, 2 and 3 is 0 <= -1.
    Act::Tell(9),
    Act::Tell(3),
    Act::Clash(&[1, 2, 3]),
    Act::Undo(3),
    Act::Told(3),
    Act::Feasible(&[7, 1, 2, 8]),
    // Twice 1, 2, 4 and three times 5: the sum is 0 <= -3.
    Act::Tell(4),
    Act::Feasible(&[7, 1, 2, 4]),
    Act::Tell(5),
    Act::Clash(&[1, 2, 4, 5]),
    Act::Undo(4),
    Act::Tell(6),
    Act::Feasible(&[7, 1, 2, 4, 6, -5]),
    Act::Undo(0),
    // x > y and y > z, and x <= z: the sum is 0 < 0.
    Act::Tell(-1),
    Act::Tell(-2),
    Act::Feasible(&[-1, -2, -8]),
    Act::Tell(8),
    Act::Clash(&[-1, -2, 8]),
    Act::Undo(0),
    // 10, twice 5 and 3/2 times 11: the sum is 0 <= -3/2.
    Act::Tell(5),
    Act::Tell(10),
    Act::Feasible(&[5, 10, -11]),
    Act::Tell(11),
    Act::Clash(&[5, 10, 11]),
];

#[test]
fn test_bounds_clash_over_rows(rt: HostRuntime) -> Result<(), Fail> {
    run(rt.alloc(), ROWS, CLASHES)
}

// A bound that clashes with one of the same sum is refused at once, and isn't told.
const REFUSED: &[Act] = &[
    Act::Tell(5),
    Act::Refuse(6, &[5, 6]),
    Act::Told(1),
    Act::Tell(9),
    Act::Feasible(&[5, -6, 9]),
    Act::Undo(0),
    Act::Tell(6),
    Act::Refuse(-9, &[6, -9]),
];

#[test]
fn test_a_bound_is_refused(rt: HostRuntime) -> Result<(), Fail> {
    run(rt.alloc(), ROWS, REFUSED)
}

// Forms and point stay, and no bound does: what was true of the same bounds is so again.
const RESTARTED: &[Act] = &[
    Act::Tell(5),
    Act::Tell(10),
    Act::Feasible(&[5, 10, -11]),
    Act::Restart,
    Act::Told(0),
    Act::Tell(6),
    Act::Feasible(&[6, -5]),
    Act::Restart,
    Act::Tell(7),
    Act::Tell(1),
    Act::Tell(2),
    Act::Tell(3),
    Act::Clash(&[1, 2, 3]),
    Act::Restart,
    Act::Tell(7),
    Act::Tell(1),
    Act::Tell(2),
    Act::Feasible(&[7, 1, 2, 8]),
];

#[test]
fn test_a_theory_begins_anew_over_its_forms(rt: HostRuntime) -> Result<(), Fail> {
    run(rt.alloc(), ROWS, RESTARTED)
}

const BROKEN: &[Row] = &[
    Row([-1, -1, 0], -2), // 1: x + y >= 2
    Row([0, -1, -1], -3), // 2: y + z >= 3
    Row([-1, 0, -1], -1), // 3: x + z >= 1
    Row([1, 1, 1], 2), // 4: x + y + z <= 2
    Row([1, 1, 1], 3), // 5: x + y + z <= 3
];

// At 0, where each unit begins, 1, 2 and 3 are false. Half of their sum is x + y + z >= 3.
const ARRANGED: &[Act] = &[
    Act::Arrange(&[1, 2, 3]),
    Act::Told(0),
    Act::Tell(1),
    Act::Tell(2),
    Act::Tell(3),
    Act::Feasible(&[1, 2, 3, -4]),
    Act::Tell(5),
    Act::Feasible(&[1, 2, 3, -4, 5]),
    Act::Tell(4),
    Act::Clash(&[1, 2, 3, 4]),
    // The theory that comes then has other forms first, and says the same.
    Act::Arrange(&[1, -3, -5]),
    Act::Told(0),
    Act::Tell(1),
    Act::Tell(-3),
    Act::Tell(-5),
    Act::Feasible(&[1, -3, -4, -5]),
    Act::Undo(1),
    Act::Tell(2),
    Act::Tell(3),
    Act::Tell(4),
    Act::Clash(&[1, 2, 3, 4]),
];

#[test]
fn test_a_theory_begins_anew_over_arranged_forms(rt: HostRuntime) -> Result<(), Fail> {
    run(rt.alloc(), BROKEN, ARRANGED)
}

// Lower bounds of x, the weakest first: above 1, at least 2, above 5; of x - z: above 0, at least 1.
const NEIGHBOURS: &[Act] = &[
    Act::Excludes(0, &[&[5, 6], &[-9, -5], &[3, 8]]),
    Act::Excludes(1, &[&[-9, -5], &[3, 8]]),
    Act::Excludes(3, &[]),
];

#[test]
fn test_neighbouring_bounds_exclude_each_other(rt: HostRuntime) -> Result<(), Fail> {
    run(rt.alloc(), ROWS, NEIGHBOURS)
}
