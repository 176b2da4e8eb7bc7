//! Values of constants, and the sorts of numbers.

use crate::acts::Wrong;
use crate::calls::pair;
use nz_base::Memory;
use nz_term::{Assign, Head, NumberSort, Operator, Sort, Value};
use std::alloc::Global;
use std::test::Fail;

/// An assignment of two constants.
fn assign_two(model: &mut Assign) -> Result<(), Memory> {
    model.push(5, Value::Truth(true))?;
    model.push(2, Value::Truth(false))
}

/// Which of these isn't so of an assignment of two constants.
fn first_wrong(model: &Assign) -> Option<usize> {
    let cases = [
        model.len() == 2,
        pair(model, 1) == Some((2, Value::Truth(false))),
        model.value(5) == Some(Value::Truth(true)),
        model.value(0) == None,
    ];
    for (place, is_so) in cases.iter().enumerate() {
        if !*is_so {
            return Some(place);
        }
    }
    None
}

/// Fails where values aren't found by the numbers of their constants.
fn finds_values(model: &mut Assign) -> Result<(), Fail> {
    if !model.is_empty() {
        return Err(Fail::new("a new assignment isn't empty"));
    }
    assign_two(model)?;
    match first_wrong(model) {
        Some(place) => Err(Fail::from(Wrong { place })),
        None => Ok(()),
    }
}

#[test]
fn test_values_are_found_by_number(rt: HostRuntime) -> Result<(), Fail> {
    let mut model = Assign::new(rt.alloc())?;
    finds_values(&mut model)
}

/// Whether numbers are read so at a sort.
fn is_read(sort: Sort, read: Sort) -> bool {
    let numbers = NumberSort::of(sort);
    numbers.sort() == read && Head::Operator(Operator::Sum(numbers)).sort() == read
}

#[test]
fn test_numbers_are_read_at_a_sort(rt: HostRuntime) -> Result<(), Fail> {
    const CASES: &[(Sort, Sort)] = &[
        (Sort::Bool, Sort::Real),
        (Sort::Int, Sort::Int),
        (Sort::Real, Sort::Real),
    ];
    for (place, (sort, read)) in CASES.iter().enumerate() {
        if !is_read(*sort, *read) {
            return Err(Fail::from(Wrong { place }));
        }
    }
    Ok(())
}
