//! Checks, under assumptions or none, and which of them are taken.
ghost use Rattle.std.specs.Prelude.{◌≡◌, [], map, ◌||◌, if◌then◌else◌};
ghost use Rattle.nz_script.specs.commands.Request as requests;
ghost use Rattle.nz_script.specs.live.Live.{State};
ghost use Rattle.nz_script.specs.commands.Script.{check_under};
ghost use Rattle.nz_command.specs.Requests.{assumption_view};
ghost use Rattle.nz_sort.specs.Live.{IsLive, check, unsupported};
ghost use Rattle.nz_sort.specs.Acts.{asked};
ghost use Rattle.nz_sort.specs.Changes.{Comes};

use super::Live;
use crate::acts::Act;
use crate::assuming::{FoundAssumptions, assumed};
use nz_base::Error;
use nz_command::Assumption;
use nz_spec::table::term_stays;
use nz_term::{Terms, add_companions, grows_twice};

impl Live {
    /// No check is over Int, yet.
    pub(super) fn check_act(&self) -> Act
        ensures check { asked result ≡ (if self.now.top.holds_integers then unsupported else check []) }
    {
        if self.top.holds_integers {
            Act::Unsupported
        } else {
            Act::Check(Vec::new(self.alloc))
        }
    }

    /// A check under assumptions.
    pub(super) fn check_under(
        &self,
        terms: &mut Terms,
        assumptions: &[Assumption],
    ) -> Result<Act, Error>
        requires live { (s : State) × IsLive terms.old self.now s }
        ensures comes { Comes terms.old terms.new self.now self.now (requests.checks_assuming (map assumption_view assumptions.now)) (λ s. check_under s (map assumption_view assumptions.now)) result }
    {
        grows_twice();
        term_stays();
        let mark = terms.mark();
        let found = assumed(self.alloc, &self.names, terms, assumptions)?;
        if self.holds_integer_with(&found) {
            terms.cut(mark);
            return Ok(Act::Unsupported);
        }
        if found.is_unknown {
            return Err(Error::UnknownSymbol);
        }
        if found.is_missorted {
            return Err(Error::Sort);
        }
        add_companions(self.alloc, terms, mark)?;
        Ok(Act::Check(found.literals))
    }

    /// A live term, or one that is assumed, holds a unit of sort `Int`.
    fn holds_integer_with(&self, found: &FoundAssumptions) -> bool
        ensures holds { result ≡ (self.now.top.holds_integers || found.now.holds_integer) }
    {
        self.top.holds_integers || found.holds_integer
    }
}
