//! Forms and bounds that are made of others, as the kernel's rules need them.
ghost use Rattle.std.specs.Prelude.{◌≡◌, IfOk, List, false};
ghost use Rattle.nz_spec.specs.numbers.Computation.{at_once};
ghost use Rattle.nz_spec.specs.terms.Form.{joined};
ghost use Rattle.nz_spec.specs.terms.FormOf.{number_in};
ghost use Rattle.nz_fractions.specs.Fraction.{Difference, Sum};
ghost use Rattle.nz_spec.specs.clauses.Literal.{is_at_most};
ghost use Rattle.nz_spec.specs.terms.Table.{IsTable, Node, term_in};
ghost use Rattle.nz_spec.specs.clauses.Units.{at_most_number, below_number, times_unit};
ghost use Rattle.nz_lin.specs.Bounds.{HasUnits, IsLiteral, literal_over};
ghost use Rattle.nz_lin.specs.Comes.{IsFormed, arithmetic_of};
ghost use Rattle.nz_lin.specs.Forms.{AreUnits, NamesUnit, form_over, parts_over};

use crate::bound::Bound;
use crate::form::{Form, Part, Sign};
use nz_base::Memory;
use nz_frac::Frac;
use nz_term::{ArithmeticStop, Sort, TermId};
use std::alloc::Global;

impl Form {
    /// A number times a unit.
    pub fn times_unit(alloc: Global, factor: Frac, unit: TermId, sort: Sort) -> Result<Form, Memory>
        ensures form { IfOk result (λ f. (ns : List Node) → form_over ns f ≡ times_unit factor (term_in ns unit)) }
        ensures units { IfOk result (λ f. (ns : List Node) → NamesUnit ns (record { unit = unit; sort = sort; coefficient = factor }) → AreUnits ns f.parts) }
    {
        let mut parts = Vec::new(alloc);
        parts.push(Part {
            unit,
            sort,
            coefficient: factor,
        })?;
        Ok(Form {
            parts,
            offset: Frac::whole(0),
        })
    }

    /// The sum with another form: unit by unit, and what is added last.
    ///
    /// # Errors
    ///
    /// `Wide` with the first operation that leaves the numbers; `Memory`.
    pub fn plus(self, other: &Form) -> Result<Form, ArithmeticStop>
        ensures formed { (ns : List Node) → IsTable ns → AreUnits ns self.parts → AreUnits ns other.now.parts → IsFormed ns (joined (number_in ns) Sum (form_over ns self) (form_over ns other.now)) result }
    {
        self.joined_with(Sign::Plus, other)
    }

    /// The form less another: unit by unit, and what is added last.
    ///
    /// # Errors
    ///
    /// `Wide` with the first operation that leaves the numbers; `Memory`.
    pub fn minus(self, other: &Form) -> Result<Form, ArithmeticStop>
        ensures formed { (ns : List Node) → IsTable ns → AreUnits ns self.parts → AreUnits ns other.now.parts → IsFormed ns (joined (number_in ns) Difference (form_over ns self) (form_over ns other.now)) result }
    {
        self.joined_with(Sign::Minus, other)
    }

    /// Another form added or subtracted.
    fn joined_with(self, sign: Sign, other: &Form) -> Result<Form, ArithmeticStop>
        ensures formed { (ns : List Node) → IsTable ns → AreUnits ns self.parts → AreUnits ns other.now.parts → IsFormed ns (joined (number_in ns) (arithmetic_of sign) (form_over ns self) (form_over ns other.now)) result }
    {
        let mut form = self;
        form.join(sign, other)?;
        Ok(form)
    }
}

impl Bound {
    /// The same units, at most another limit.
    pub fn with_limit(self, limit: Frac) -> Bound
        ensures literal { (ns : List Node) → literal_over ns result ≡ is_at_most (parts_over ns self.sides.parts) limit }
        ensures units { (ns : List Node) → HasUnits ns self → HasUnits ns result }
        ensures strict { result.strict ≡ false }
    {
        Bound {
            sides: self.sides.with_offset(limit),
            strict: false,
        }
    }

    /// A form is at most a number: the limit is the number less what the form adds.
    ///
    /// # Errors
    ///
    /// `Wide` where that leaves the numbers.
    #[tactic(auto, unfolding(nz_fractions::specs::Fraction::first_wide))]
    pub fn at_most(form: Form, number: Frac) -> Result<Bound, ArithmeticStop>
        ensures literal { (ns : List Node) → AreUnits ns form.parts → IsLiteral ns (at_most_number number (at_once (form_over ns form))) result }
    {
        let limit = number.sub(form.offset())?;
        Ok(Bound {
            sides: form.with_offset(limit),
            strict: false,
        })
    }

    /// A form is below a number.
    ///
    /// # Errors
    ///
    /// `Wide` where the number less what the form adds leaves the numbers.
    #[tactic(auto, unfolding(nz_fractions::specs::Fraction::first_wide))]
    pub fn below(form: Form, number: Frac) -> Result<Bound, ArithmeticStop>
        ensures literal { (ns : List Node) → AreUnits ns form.parts → IsLiteral ns (below_number number (at_once (form_over ns form))) result }
    {
        let limit = number.sub(form.offset())?;
        Ok(Bound {
            sides: form.with_offset(limit),
            strict: true,
        })
    }
}
