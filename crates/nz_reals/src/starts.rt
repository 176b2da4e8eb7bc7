//! A theory that begins anew over the forms that are there.
ghost use Rattle.std.specs.Prelude.{◌≡◌, ◌<◌, ℕ, List, [], IfOk, None, OnErr, OnOk, length, map, option_map, slice_index_or};
ghost use Rattle.std.specs.declared.vec.Vec.{Vec};
ghost use Rattle.std.specs.declared.alloc.Global.{Global};
ghost use Rattle.nz_spec.specs.search.Search.{Task, terms_known};
ghost use Rattle.nz_spec.specs.terms.Table.{Node};
ghost use Rattle.nz_delta.specs.DeltaSpace.{infinitesimal_of};
ghost use Rattle.nz_lin.specs.declared.form.Part.{Part};
ghost use Rattle.nz_log.specs.declared.atoms.Atom.{Atom};
ghost use Rattle.nz_search.specs.Notes.{places_of};
ghost use Rattle.nz_search.specs.Standing.{Stands};
ghost use Rattle.nz_simplex.specs.State.{point_in};
ghost use Rattle.nz_reals.specs.Stands.{HasTold, IsAt, IsOf, IsOver};
ghost use Rattle.nz_reals.specs.State.{empty_theory};
ghost use Rattle.nz_reals.specs.Starts.{IsStart, MayRestart, NotesStart};

use crate::reals::{Reals, stored};
use nz_base::{Memory, Work};
use nz_delta::Delta;
use nz_lin::Part;
use nz_search::{Boxed, Note, StartNote};
use nz_spec::work::more_terms_may_begin;
use nz_trail::Var;

impl Reals {
    /// Begins anew over the forms that are there, where they stand: nothing is told, and no atom is known. The work list, which is to have no line
    /// yet, begins with them.
    ///
    /// # Errors
    ///
    /// `Memory`. Then the list is as before.
    pub fn restart(&mut self, work: &mut Work<Note>) -> Result<(), Memory>
        requires no_steps { work.old.lines ≡ [] }
        ensures untold { OnOk result (HasTold self.new []) }
        ensures of { OnOk result ((atoms : List Atom) → IsOf self.new atoms []) }
        ensures over { (ns : List Node) → IsOver self.old ns → IsOver self.new ns }
        ensures notes { OnOk result (NotesStart self.old work.old work.new) }
        // Where a search may begin with the forms, where they stand, the list leads to where the theory stands.
        ensures stands { OnOk result ((ns : List Node) (q : Task) → IsOver self.old ns → MayRestart self.old ns (terms_known q) → Stands (IsAt self.new ns) ns q work.new) }
        ensures unchanged { OnErr result (work.new ≡ work.old) }
    {
        more_terms_may_begin();
        let start = self.start()?;
        work.note(Note::Start(Boxed::new(self.alloc, start)?))?;
        self.forget();
        Ok(())
    }

    /// Takes all bounds back, and forgets each atom. The forms and the point stay. Takes no memory.
    fn forget(&mut self)
        ensures forgotten { self.new ≡ record empty_theory { simplex = record self.old.simplex { asserted = [] } } }
    {
        self.simplex.undo(0);
        self.bounded.clear();
        self.told.clear();
    }

    /// The forms, and where the nonbasic ones stand.
    fn start(&self) -> Result<StartNote, Memory>
        ensures start { IfOk result (IsStart self.now.simplex) }
    {
        stored(self);
        let forms = self.form_lists()?;
        let places = self.places()?;
        Ok(StartNote { forms, places })
    }

    /// The parts of each form.
    fn form_lists(&self) -> Result<Vec<Vec<Part>>, Memory>
        ensures forms { IfOk result (λ fs. map (λ (f : Vec Part Global). f.items) fs.items ≡ self.now.simplex.forms) }
    {
        let mut forms = Vec::new(self.alloc);
        for var in 0..self.simplex.len() {
            let form = Vec::from_slice(self.alloc, self.simplex.form(var))?;
            forms.push(form)?;
        }
        Ok(forms)
    }

    /// Where each form stands; a basic one has no place.
    fn places(&self) -> Result<Vec<Option<Delta>>, Memory>
        ensures places { IfOk result (λ ps. (k : ℕ) → slice_index_or (places_of ps.items) k None ≡ point_in self.now.simplex k) }
    {
        stored(self);
        let mut places = Vec::new(self.alloc);
        for var in 0..self.simplex.len() {
            places.push(self.place(var))?;
        }
        Ok(places)
    }

    /// Where a form stands, if it is nonbasic.
    fn place(&self, var: Var) -> Option<Delta>
        requires known { var < length self.now.simplex.forms }
        ensures place { option_map infinitesimal_of result ≡ point_in self.now.simplex var }
    {
        stored(self);
        if self.simplex.is_basic(var) {
            return None;
        }
        Some(self.simplex.value(var))
    }
}
