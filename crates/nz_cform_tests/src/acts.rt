//! Cases told by tables: what is covered and taken back, and what is to come of it. One loop walks them, so that a test is one call, and cheap to prove.
use crate::bounds::{Row, are_bounds};
use crate::cover::Cover;
use nz_base::Memory;
use nz_cform::FormStop;
use nz_term::{TermId, Terms};
use nz_term_samples::{Term, make_all};
use std::alloc::Global;
use std::test::Fail;

/// What is done or asked, and what is to come of it.
pub(crate) enum Act {
    /// A term is covered at a level: so many clauses are added.
    Add(TermId, usize, usize),
    /// What is above a level is taken back.
    Cut(usize),
    /// So many terms are covered.
    Covered(usize),
    /// So many bounds are listed.
    Listed(usize),
    /// Just these bounds are listed, in this order.
    Bounds(&'static [Row]),
    /// Just these terms are covered with a term, in this order.
    Parts(TermId, &'static [TermId]),
}

/// Something else than was wanted, and of which act.
#[derive(Clone, Copy, Debug)]
struct Wrong {
    place: usize,
}

/// Does what an act says. Answers whether that comes to what is wanted.
fn is_done(alloc: Global, cover: &mut Cover, act: &Act) -> Result<bool, FormStop> {
    match act {
        Act::Add(id, level, clauses) => Ok(cover.add(alloc, *id, *level)? == *clauses),
        Act::Cut(level) => {
            cover.cut(*level);
            Ok(true)
        }
        Act::Covered(count) => Ok(cover.form().terms().len() == *count),
        Act::Listed(count) => Ok(cover.form().bounds().len() == *count),
        Act::Bounds(rows) => Ok(are_bounds(cover.log(), cover.form().bounds(), rows)),
        Act::Parts(id, parts) => Ok(cover.parts(alloc, *id)?.as_slice() == *parts),
    }
}

/// Does these acts one after another. Fails at the first that comes to something else than is wanted.
fn follow(alloc: Global, cover: &mut Cover, acts: &[Act]) -> Result<(), Fail> {
    for (place, act) in acts.iter().enumerate() {
        if !is_done(alloc, cover, act)? {
            return Err(Fail::from(Wrong { place }));
        }
    }
    Ok(())
}

/// A table of these terms, of which nothing is covered.
fn cover_of(alloc: Global, list: &[Term]) -> Result<Cover, Memory> {
    let mut terms = Terms::new(alloc)?;
    make_all(alloc, &mut terms, list)?;
    Cover::new(alloc, terms)
}

/// Does these acts over a table of these terms.
pub(crate) fn run(alloc: Global, list: &[Term], acts: &[Act]) -> Result<(), Fail> {
    let mut cover = cover_of(alloc, list)?;
    follow(alloc, &mut cover, acts)
}
