//! Laws of the terms that trees stand for.
ghost use Rattle.nz_script.specs.commands.Elaboration.{TermFits};
ghost use Rattle.nz_spec.specs.terms.Definitions.{ExpansionKeepsSort};

use nz_spec::term::sorts_tell;

/// What a tree stands for, where all that is in scope is no parameter or one that fits, is so too.
pub fn terms_fit()
    ensures fits { TermFits }
{
    sorts_tell();
}

/// A use of a definition has the sort of its body.
pub fn expansions_keep_sort()
    ensures keeps { ExpansionKeepsSort }
{
    sorts_tell();
}
