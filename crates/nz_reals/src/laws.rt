//! Laws of theories.
ghost use Rattle.nz_reals.specs.Starts.{TheoriesRestart};

use nz_spec::table::term_stays;
use nz_spec::work::{legal_work_may_begin, more_terms_may_begin};

/// When a search may begin with a theory, where it stands: over no sum, where a legal work list led to it, after more searches, and over a table that has grown.
pub fn theories_restart()
    ensures restart { TheoriesRestart }
{
    legal_work_may_begin();
    more_terms_may_begin();
    term_stays();
}
