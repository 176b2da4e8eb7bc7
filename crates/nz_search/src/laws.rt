//! Laws of lists that go on.
ghost use Rattle.nz_search.specs.Asked.{ChecksMayStart};

/// A check may be made of a list without lines that is asked what the check is.
#[tactic(auto, using(crate::proofs::FirstChecks::checks_may_start))]
pub fn checks_may_start()
    ensures start { ChecksMayStart }
{}
