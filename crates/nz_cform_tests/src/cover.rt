//! What is covered of a table. What a call asks of its arguments is tested here, or is the invariant, which is known to no other file: so the tests
//! have nothing to prove.
use nz_base::Memory;
use nz_cform::laws::covers_stay;
use nz_cform::{ClauseForm, FormStop, put_parts};
use nz_log::Log;
use nz_taken_samples::need_taken;
use nz_term::{TermId, Terms, add_companions};
use std::alloc::Global;
use std::marker::Model;

/// A table, its log, and what is covered in it.
#[derive(Drop)]
pub(crate) struct Cover {
    terms: Terms,
    log: Log,
    form: ClauseForm,
    // No level above it was told.
    level: usize,
    // After an error it isn't known what is covered.
    is_known: bool,
}

impl Model for Cover {
    ghost use Rattle.nz_cform_tests.specs.Covers.{CoverState, IsCover};

    ghost Value = { CoverState };

    ghost view = { λ c. record { terms = c.terms; log = c.log; form = c.form } };

    ghost invariant = { λ c. IsCover c.terms c.log c.form c.level c.is_known };
}

impl Cover {
    /// Nothing is covered. The companions of all terms join the table.
    pub(crate) fn new(alloc: Global, terms: Terms) -> Result<Cover, Memory> {
        covers_stay();
        let mut terms = terms;
        add_companions(alloc, &mut terms, 0)?;
        Ok(Cover {
            terms,
            log: Log::new(alloc)?,
            form: ClauseForm::new(alloc),
            level: 0,
            is_known: true,
        })
    }

    /// Covers a term at a level. Answers how many clauses that adds.
    pub(crate) fn add(
        &mut self,
        alloc: Global,
        id: TermId,
        level: usize,
    ) -> Result<usize, FormStop> {
        if !self.is_known || level < self.level || self.terms.len() <= id {
            return Err(FormStop::Memory);
        }
        need_taken(&self.terms)?;
        self.is_known = false;
        self.level = level;
        let clauses = self
            .form
            .add_term(alloc, &mut self.log, &self.terms, id, level)?;
        self.is_known = true;
        Ok(clauses.len())
    }

    /// Takes back what is above a level.
    pub(crate) fn cut(&mut self, level: usize) {
        covers_stay();
        self.log.drop_above(level);
        self.form.cut(level);
    }

    /// What is covered with a term.
    pub(crate) fn parts(&self, alloc: Global, id: TermId) -> Result<Vec<TermId>, Memory> {
        if self.terms.len() <= id {
            return Err(Memory);
        }
        let mut parts = Vec::new(alloc);
        put_parts(&self.terms, id, &mut parts)?;
        Ok(parts)
    }

    /// The log.
    pub(crate) fn log(&self) -> &Log {
        &self.log
    }

    /// What is covered.
    pub(crate) fn form(&self) -> &ClauseForm {
        &self.form
    }
}
