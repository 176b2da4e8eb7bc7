//! Numbers, as they are spelled (SMT-LIB 2.6, theory Reals_Ints).
ghost use Rattle.std.specs.Prelude.{decimal, unsigned_abs};
ghost use Rattle.nz_fractions.specs.Fraction.{denominator};
ghost use Rattle.nz_script.specs.replies.Reply.{number_text, plain_text, quotient_text, signed_text};
ghost use Rattle.nz_term.specs.Constants.{sort_of};

use crate::write::{Spell, WriteFault};
use itoa::{Buffer, Integer};
use nz_base::Sink;
use nz_frac::Frac;
use nz_term::Sort;

/// A number as its sort spells it; of no sort of numbers, as an operand.
#[derive(Drop)]
pub(crate) struct Number {
    pub(crate) sort: Sort,
    pub(crate) number: Frac,
}

impl Spell for Number {
    ghost text = { λ n. number_text (sort_of n.sort) n.number };

    fn write<K: Sink>(&self, sink: &mut K) -> Result<(), WriteFault> {
        let number = self.number;
        match self.sort {
            Sort::Bool => Operand(number).write(sink),
            Sort::Int => Signed(number, Size(number)).write(sink),
            Sort::Real => Signed(number, Quotient(number, ".0")).write(sink),
        }
    }
}

/// A number as an operand of an operation: without a point.
#[derive(Drop)]
pub(crate) struct Operand(pub(crate) Frac);

impl Spell for Operand {
    ghost text = { λ n. plain_text n.0 };

    fn write<K: Sink>(&self, sink: &mut K) -> Result<(), WriteFault> {
        Signed(self.0, Quotient(self.0, "")).write(sink)
    }
}

/// A number whose size has this text: negative ones are spelled as negations.
#[derive(Drop)]
struct Signed<T>(Frac, T);

impl<T: Spell> Spell for Signed<T> {
    ghost text = { λ n. signed_text n.0.numerator (T.text n.1) };

    fn write<K: Sink>(&self, sink: &mut K) -> Result<(), WriteFault> {
        if self.0.num() < 0 {
            ("(- ", &self.1, ")").write(sink)
        } else {
            self.1.write(sink)
        }
    }
}

/// A number without its sign, with this text behind the digits of its numerator and of its denominator; the denominator 1 is
/// left out.
#[derive(Drop)]
struct Quotient(Frac, &'static str);

impl Spell for Quotient {
    ghost text = { λ q. quotient_text q.1.now (unsigned_abs q.0.numerator) (denominator q.0) };

    fn write<K: Sink>(&self, sink: &mut K) -> Result<(), WriteFault> {
        let Quotient(number, point) = *self;
        if number.den() == 1 {
            (Size(number), point).write(sink)
        } else {
            (
                (("(/ ", Size(number), point), " ", Denominator(number)),
                point,
                ")",
            )
                .write(sink)
        }
    }
}

/// The numerator of a number, without its sign.
#[derive(Drop)]
struct Size(Frac);

impl Spell for Size {
    ghost text = { λ n. decimal (unsigned_abs n.0.numerator) };

    fn write<K: Sink>(&self, sink: &mut K) -> Result<(), WriteFault> {
        Decimal(self.0.num().unsigned_abs()).write(sink)
    }
}

/// The denominator of a number.
#[derive(Drop)]
struct Denominator(Frac);

impl Spell for Denominator {
    ghost text = { λ n. decimal (denominator n.0) };

    fn write<K: Sink>(&self, sink: &mut K) -> Result<(), WriteFault> {
        Decimal(self.0.den().unsigned_abs()).write(sink)
    }
}

/// The digits of an integer.
#[derive(Drop)]
pub(crate) struct Decimal<N>(pub(crate) N);

impl<N: Integer> Spell for Decimal<N> {
    ghost text = { λ n. N.text n.0 };

    fn write<K: Sink>(&self, sink: &mut K) -> Result<(), WriteFault> {
        let mut digits = Buffer::new();
        digits.format(self.0).write(sink)
    }
}
