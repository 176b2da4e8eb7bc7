//! Operations by their names.
ghost use Rattle.std.specs.Prelude.{◌≡◌, IfOk, IfErr};
ghost use Rattle.nz_spec.specs.terms.Term.{is_undefined};
ghost use Rattle.nz_frac.specs.Operations.{IsCarriedOut, IsStopped, operator_of};

use crate::frac::{Frac, Op, Wide};

impl Op {
    /// Whether it is no operation on this right operand: a quotient by 0.
    pub fn is_undefined(self, right: Frac) -> bool
        ensures undefined { result ≡ is_undefined (operator_of self) right }
    {
        match self {
            Op::Add | Op::Sub | Op::Mul => false,
            Op::Div => right.is_zero(),
        }
    }

    /// The operation on two numbers, or Wide where it leaves them. A quotient by 0, which is no operation, comes to 0.
    pub fn carry_out(self, left: Frac, right: Frac) -> Result<Frac, Wide>
        ensures carried { IfOk result (λ q. IsCarriedOut (operator_of self) left right q) }
        ensures stopped { IfErr result (λ w. IsStopped (operator_of self) left right w) }
    {
        match self {
            Op::Add => left.add(right),
            Op::Sub => left.sub(right),
            Op::Mul => left.mul(right),
            Op::Div => {
                if right.is_zero() {
                    return Ok(Frac::whole(0));
                }
                left.div(right)
            }
        }
    }
}
