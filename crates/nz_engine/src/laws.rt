//! Laws of engines.
ghost use Rattle.nz_engine.specs.Lists.{EnginesStand};

use nz_reals::laws::theories_restart;

/// Where an engine may go on with a list that is few, the list is legal, and a later one may begin.
pub fn engines_stand()
    ensures stand { EnginesStand }
{
    theories_restart();
}
