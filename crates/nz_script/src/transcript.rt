//! Laws of transcripts.
ghost use Rattle.nz_script.specs.laws.BooleanChecks.{BooleanChecksAreAnswered};
ghost use Rattle.nz_script.specs.laws.Sorts.{AssertionsAreGated, AssertionsAreOver, AssumptionsAreTaken, StatesStaySorted, TermsHaveTheirSorts};
ghost use Rattle.nz_script.specs.run.Transcript.{TranscriptGrows};

use nz_spec::deciding::normal_terms_are_taken;
use nz_spec::term::{normal_stays_sorted, normal_terms_are_gated, sorts_tell};
use nz_spec::work::{
    boolean_listings_are_gated, boolean_work_is_bounded, boolean_work_is_never_stopped,
};

/// A transcript goes on by one thing told and its right reply.
pub fn transcript_grows()
    ensures grows { TranscriptGrows }
{}

/// After any commands, what a tree stands for has a value of its sort, and each assertion has a truth.
pub fn terms_have_their_sorts()
    ensures sorts { TermsHaveTheirSorts }
{
    sorts_tell();
    normal_stays_sorted();
    normal_terms_are_taken();
}

/// Definitions and assertions are well sorted at first, and stay so.
pub fn states_stay_sorted()
    ensures stay { StatesStaySorted }
{
    sorts_tell();
    normal_stays_sorted();
    normal_terms_are_taken();
}

/// In a state whose assertions are well sorted, they are over the live constants.
pub fn assertions_are_over()
    ensures over { AssertionsAreOver }
{}

/// In such a state the terms that a check assumes are over the live constants, and their normal terms are such as checks take.
pub fn assumptions_are_taken()
    ensures taken { AssumptionsAreTaken }
{
    sorts_tell();
    normal_stays_sorted();
    normal_terms_are_taken();
}

/// In a state whose assertions are well sorted, their normal terms are of the gate table, where they hold no number.
pub fn assertions_are_gated()
    ensures gated { AssertionsAreGated }
{
    normal_terms_are_gated();
}

/// A check over n Boolean terms is answered `unknown` for want of units only under a limit of at most `n * (3 ^ n + 1)`, and for no other cause
/// where the checks before had no numbers.
pub fn boolean_checks_are_answered()
    ensures answered { BooleanChecksAreAnswered }
{
    boolean_work_is_bounded();
    boolean_work_is_never_stopped();
    boolean_listings_are_gated();
    states_stay_sorted();
    assumptions_are_taken();
}
