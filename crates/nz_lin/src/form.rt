//! Forms, and how they are added, subtracted, negated and multiplied.
ghost use Rattle.std.specs.Prelude.{◌≡◌, ◌<◌, List, [], IfOk, OnOk, map, vec_len};
ghost use Rattle.nz_spec.specs.numbers.Computation.{operated};
ghost use Rattle.nz_spec.specs.terms.Form as spec;
ghost use Rattle.nz_spec.specs.terms.Form.{negated_form, joined, part_joined, scaled, unit_form};
ghost use Rattle.nz_spec.specs.terms.FormOf.{number_in};
ghost use Rattle.nz_fractions.specs.Fraction.{Fraction};
ghost use Rattle.nz_spec.specs.terms.Table.{IsTable, Node, term_in};
ghost use Rattle.nz_lin.specs.Comes.{AreFormed, Comes, IsFormed, IsOperated, alone, arithmetic_of, times};
ghost use Rattle.nz_lin.specs.Forms.{AreUnits, NamesUnit, form_over, meeting, negated, part_over, parts_over, with_last, with_met};

use nz_base::Memory;
use nz_frac::{Frac, Wide};
use nz_spec::derivation::tells_literals;
use nz_spec::form::{joins_at_its_place, term_has_its_number};
use nz_term::{ArithmeticStop, Sort, TermId};
use std::alloc::{AllocError, Global};
use std::marker::Model;

/// A unit with its coefficient.
#[derive(Clone, Copy, Debug)]
pub struct Part {
    /// The number of the unit in its table.
    pub unit: TermId,
    /// The sort of the unit.
    pub sort: Sort,
    /// What the unit is multiplied by: not 0.
    pub coefficient: Frac,
}

impl Part {
    /// The part with the other sign.
    fn neg(self) -> Part
        ensures negated { result ≡ negated self }
    {
        Part {
            coefficient: self.coefficient.neg(),
            ..self
        }
    }

    /// What is added to nothing, or subtracted from it.
    fn alone(self, sign: Sign) -> Part
        ensures alone { result ≡ alone sign self }
    {
        match sign {
            Sign::Plus => self,
            Sign::Minus => self.neg(),
        }
    }
}

/// A form: units with their coefficients, by rising numbers, and a number that is added.
#[derive(Debug, Drop)]
pub struct Form {
    pub(crate) parts: Vec<Part>,
    pub(crate) offset: Frac,
}

impl Model for Form {
    ghost use Rattle.nz_lin.specs.Forms.{Numbered};

    ghost Value = { Numbered };

    ghost view = { λ f. record { parts = f.parts.items; offset = f.offset } };
}

impl Form {
    /// A number alone. Takes no memory.
    pub(crate) fn number(alloc: Global, number: Frac) -> Form
        ensures form { result ≡ record { parts = []; offset = number } }
    {
        Form {
            parts: Vec::new(alloc),
            offset: number,
        }
    }

    /// A unit alone.
    pub(crate) fn unit(alloc: Global, unit: TermId, sort: Sort) -> Result<Form, Memory>
        ensures unit { IfOk result (λ f. (ns : List Node) → form_over ns f ≡ unit_form (term_in ns unit)) }
        ensures names { IfOk result (λ f. (ns : List Node) → ((c : Fraction) → NamesUnit ns (record { unit = unit; sort = sort; coefficient = c })) → AreUnits ns f.parts) }
    {
        let mut parts = Vec::new(alloc);
        parts.push(Part {
            unit,
            sort,
            coefficient: Frac::whole(1),
        })?;
        Ok(Form {
            parts,
            offset: Frac::whole(0),
        })
    }

    /// The units with their coefficients, by rising numbers.
    pub fn parts(&self) -> &[Part]
        ensures parts { result.now ≡ self.now.parts }
    {
        self.parts.as_slice()
    }

    /// What is added.
    pub fn offset(&self) -> Frac
        ensures offset { result ≡ self.now.offset }
    {
        self.offset
    }

    /// The same units, and another number that is added.
    pub(crate) fn with_offset(self, offset: Frac) -> Form
        ensures other { result ≡ record { parts = self.parts; offset = offset } }
    {
        Form {
            parts: self.parts,
            offset,
        }
    }

    /// The same form once more.
    ///
    /// # Errors
    ///
    /// `Memory`.
    pub fn copied(&self, alloc: Global) -> Result<Form, Memory>
        ensures same { IfOk result (λ f. f ≡ self.now) }
    {
        Ok(Form {
            parts: Vec::from_slice(alloc, self.parts.as_slice())?,
            offset: self.offset,
        })
    }

    /// The form with the other sign.
    ///
    /// # Errors
    ///
    /// `Memory`.
    pub fn negated(&self, alloc: Global) -> Result<Form, Memory>
        ensures negated { IfOk result (λ f. (ns : List Node) → form_over ns f ≡ negated_form (form_over ns self.now)) }
        ensures units { IfOk result (λ f. (ns : List Node) → AreUnits ns self.now.parts → AreUnits ns f.parts) }
    {
        Ok(Form {
            parts: negated_parts(alloc, self.parts.as_slice())?,
            offset: self.offset.neg(),
        })
    }

    /// Adds a form, or subtracts it: unit by unit, and what is added last. Each part of `other` costs a search among the
    /// parts, and moves those behind it where its unit is new or goes.
    pub(crate) fn join(&mut self, sign: Sign, other: &Form) -> Result<(), ArithmeticStop>
        ensures comes { (ns : List Node) → IsTable ns → AreUnits ns self.old.parts → AreUnits ns other.now.parts → Comes (joined (number_in ns) (arithmetic_of sign) (form_over ns self.old) (form_over ns other.now)) (form_over ns self.new) result }
        ensures units { OnOk result ((ns : List Node) → AreUnits ns self.old.parts → AreUnits ns other.now.parts → AreUnits ns self.new.parts) }
    {
        join_parts(&mut self.parts, sign, other.parts.as_slice())?;
        self.offset = sign.join(self.offset, other.offset)?;
        Ok(())
    }

    /// Each coefficient, and then what is added, as a product with a number, which stands on this side.
    pub(crate) fn multiplied(
        &self,
        alloc: Global,
        side: Side,
        factor: Frac,
    ) -> Result<Form, ArithmeticStop>
        ensures formed { (ns : List Node) → AreUnits ns self.now.parts → IsFormed ns (scaled (times side factor) (form_over ns self.now)) result }
    {
        let parts = multiplied_parts(alloc, side, factor, self.parts.as_slice())?;
        let offset = side.product(factor, self.offset)?;
        Ok(Form { parts, offset })
    }
}

/// Whether something is added or subtracted.
#[derive(Clone, Copy, Debug)]
pub(crate) enum Sign {
    Plus,
    Minus,
}

impl Sign {
    /// A number, and another one added to it or subtracted from it.
    #[tactic(auto, unfolding(nz_fractions::specs::Fraction::first_wide))]
    fn join(self, left: Frac, right: Frac) -> Result<Frac, Wide>
        ensures joined { IsOperated (operated (arithmetic_of self) left right) result }
    {
        match self {
            Sign::Plus => left.add(right),
            Sign::Minus => left.sub(right),
        }
    }
}

/// Where a factor stands in a product.
#[derive(Clone, Copy, Debug)]
pub(crate) enum Side {
    Left,
    Right,
}

impl Side {
    /// The product of a factor, which stands on this side, with a number.
    #[tactic(auto, unfolding(nz_fractions::specs::Fraction::first_wide))]
    fn product(self, factor: Frac, number: Frac) -> Result<Frac, Wide>
        ensures product { IsOperated (times self factor number) result }
    {
        match self {
            Side::Left => factor.mul(number),
            Side::Right => number.mul(factor),
        }
    }
}

/// Parts with the other sign.
fn negated_parts(alloc: Global, parts: &[Part]) -> Result<Vec<Part>, AllocError>
    ensures negated { IfOk result (λ new. new.items ≡ map negated parts.now) }
{
    parts.iter().map(|part| part.neg()).collect(alloc)
}

/// Each coefficient as a product with a number, which stands on this side; a part whose coefficient gets 0 goes.
fn multiplied_parts(
    alloc: Global,
    side: Side,
    factor: Frac,
    parts: &[Part],
) -> Result<Vec<Part>, ArithmeticStop>
    ensures scaled { (ns : List Node) → AreFormed ns (spec.parts_scaled (times side factor) (parts_over ns parts.now)) result }
    ensures units { IfOk result (λ new. (ns : List Node) → AreUnits ns parts.now → AreUnits ns new.items) }
{
    let mut new = Vec::new(alloc);
    for part in parts {
        let coefficient = side.product(factor, part.coefficient)?;
        put(
            &mut new,
            Part {
                coefficient,
                ..*part
            },
        )?;
    }
    Ok(new)
}

/// Puts a part last, where its coefficient isn't 0.
fn put(parts: &mut Vec<Part>, part: Part) -> Result<(), Memory>
    ensures put { OnOk result (parts.new.items ≡ with_last parts.old.items part) }
{
    if !part.coefficient.is_zero() {
        parts.push(part)?;
    }
    Ok(())
}

/// Adds parts, or subtracts them, one after another.
fn join_parts(parts: &mut Vec<Part>, sign: Sign, others: &[Part]) -> Result<(), ArithmeticStop>
    ensures joined { (ns : List Node) → IsTable ns → AreUnits ns parts.old.items → AreUnits ns others.now → Comes (spec.parts_joined (number_in ns) (arithmetic_of sign) (parts_over ns parts.old.items) (parts_over ns others.now)) (parts_over ns parts.new.items) result }
    ensures units { OnOk result ((ns : List Node) → AreUnits ns parts.old.items → AreUnits ns others.now → AreUnits ns parts.new.items) }
{
    for other in others {
        join_part(parts, sign, *other)?;
    }
    Ok(())
}

/// Adds a part, or subtracts it, at its place.
fn join_part(parts: &mut Vec<Part>, sign: Sign, part: Part) -> Result<(), ArithmeticStop>
    ensures joined { (ns : List Node) → IsTable ns → AreUnits ns parts.old.items → NamesUnit ns part → Comes (part_joined (number_in ns) (arithmetic_of sign) (parts_over ns parts.old.items) (part_over ns part)) (parts_over ns parts.new.items) result }
    ensures units { OnOk result ((ns : List Node) → AreUnits ns parts.old.items → NamesUnit ns part → AreUnits ns parts.new.items) }
{
    joins_at_its_place();
    tells_literals();
    term_has_its_number();
    match parts.binary_search_by_key(&part.unit, |p| p.unit) {
        Ok(place) => meet(parts, sign, place, part.coefficient),
        Err(place) => {
            parts.insert(place, part.alone(sign))?;
            Ok(())
        }
    }
}

/// Adds to the coefficient at a place, or subtracts from it; with the coefficient 0 the part goes.
fn meet(
    parts: &mut Vec<Part>,
    sign: Sign,
    place: usize,
    coefficient: Frac,
) -> Result<(), ArithmeticStop>
    requires within { place < vec_len parts.old }
    ensures met { OnOk result (parts.new.items ≡ with_met parts.old.items place (meeting parts.old.items (arithmetic_of sign) place coefficient).result) }
    ensures comes { Comes (meeting parts.old.items (arithmetic_of sign) place coefficient) (meeting parts.old.items (arithmetic_of sign) place coefficient).result result }
{
    let met = sign.join(parts[place].coefficient, coefficient)?;
    if met.is_zero() {
        parts.remove(place);
    } else {
        parts[place].coefficient = met;
    }
    Ok(())
}
