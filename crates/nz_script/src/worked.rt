//! Worked examples: short texts with what they mean, and what is right to reply to them.
ghost use Rattle.nz_script.specs.worked.WorkedTerms.{HasNames, HasNoTerms, HasSorts};
ghost use Rattle.std.specs.Prelude.{◌≡◌};
ghost use Rattle.nz_script.specs.worked.Example.{example_script, example_transcript, example_output};
ghost use Rattle.nz_script.specs.run.Run.{solve_limit};
ghost use Rattle.nz_script.specs.run.Transcript.{IsTranscript, texts_of};
ghost use Rattle.nz_script.specs.worked.WorkedScripts as scripts;
ghost use Rattle.nz_script.specs.worked.WorkedScripts.{IsWorked};
ghost use Rattle.nz_script.specs.worked.WorkedReplies.{HasErrorTexts, HasReadings, HasReplyTexts, HasSpellings, HasValueTexts, HasValuesTold};
ghost use Rattle.nz_script.specs.worked.WorkedScript.{HasAdditions, HasAsking, HasEffects, HasLevels, HasRefusals};
ghost use Rattle.nz_spec.specs.worked.TruthTables.{HasNormalTerms};
ghost use Rattle.nz_script.specs.worked.WorkedBooleans.{HasFourClauses};
ghost use Rattle.nz_script.specs.worked.WorkedLinear.{HasConstants, HasLinearTerms};
ghost use Rattle.nz_script.specs.worked.WorkedListings.{HasListings};
ghost use Rattle.nz_script.specs.worked.WorkedNormals.{HasChains, HasGroups};
ghost use Rattle.nz_script.specs.worked.WorkedNumbers.{HasArithmetic, HasComparisons, HasDivisions, HasRounding};
ghost use Rattle.nz_script.specs.text.Text.{script_limits};
ghost use Rattle.nz_script.specs.worked.Texts.{AreHeard, comment_samples, string_samples, quoted_samples, word_samples, group_samples, narrow_limits, limit_samples};

use crate::transcript::boolean_checks_are_answered;
use nz_spec::term::sorts_tell;

/// The terms of short texts, by the definitions alone.
pub fn worked_terms()
    ensures names { HasNames }
    ensures sorts { HasSorts }
    ensures none { HasNoTerms }
{}

/// A declaration, an assertion, a check and its model, by the definitions alone.
pub fn worked_example()
    ensures transcript { IsTranscript solve_limit example_script example_transcript }
    ensures output { texts_of example_transcript ≡ example_output }
{}

/// Scripts with each error that a command can meet, with values, models and what contradicts, and with levels, by the definitions
/// alone.
pub fn worked_scripts()
    ensures errors { IsWorked scripts.errors }
    ensures values { IsWorked scripts.prices }
    ensures levels { IsWorked scripts.levelled }
    ensures names { IsWorked scripts.renamed }
{
    sorts_tell();
}

/// Texts of values, trees and replies, by the definitions alone.
pub fn worked_replies()
    ensures values { HasValueTexts }
    ensures spellings { HasSpellings }
    ensures readings { HasReadings }
    ensures told { HasValuesTold }
    ensures replies { HasReplyTexts }
    ensures errors { HasErrorTexts }
{}

/// What becomes of commands, and what they leave, by the definitions alone.
pub fn worked_script()
    ensures refusals { HasRefusals }
    ensures additions { HasAdditions }
    ensures asking { HasAsking }
    ensures effects { HasEffects }
    ensures levels { HasLevels }
{}

/// Normal terms, by the definitions alone.
pub fn worked_normal_terms()
    ensures terms { HasNormalTerms }
    ensures chains { HasChains }
    ensures groups { HasGroups }
{}

/// Values of numbers, by the definitions alone.
pub fn worked_numbers()
    ensures divisions { HasDivisions }
    ensures rounding { HasRounding }
    ensures arithmetic { HasArithmetic }
    ensures comparisons { HasComparisons }
{}

/// Which terms are linear, and what constant terms come to, by the definitions alone.
pub fn worked_linear_terms()
    ensures linear { HasLinearTerms }
    ensures constants { HasConstants }
{}

/// The order in which a term list takes terms, by the definitions alone.
pub fn worked_listings()
    ensures listings { HasListings }
{}

/// Four clauses over two Boolean constants, whose check is answered under any limit above 52496.
pub fn worked_clauses()
    ensures clauses { HasFourClauses }
{
    boolean_checks_are_answered();
}

/// What is heard in short texts that show each part of the lexicon.
pub fn worked_texts()
    ensures comments { AreHeard script_limits comment_samples }
    ensures strings { AreHeard script_limits string_samples }
    ensures quoted_symbols { AreHeard script_limits quoted_samples }
    ensures words { AreHeard script_limits word_samples }
    ensures groups { AreHeard script_limits group_samples }
    ensures limited { AreHeard narrow_limits limit_samples }
{}
