//! Laws of commands.
ghost use Rattle.nz_script.specs.commands.Argument.{ArgumentTells};
ghost use Rattle.nz_script.specs.live.TermList.{IntegersAreListed};

/// The live items hold a unit of sort Int exactly where their term list has one.
pub fn integers_are_listed()
    ensures listed { IntegersAreListed }
{}

/// What a reply shows of its command stands in the command's argument.
pub fn argument_tells()
    ensures tells { ArgumentTells }
{}
