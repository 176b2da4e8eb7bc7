//! What a source's reads found so far, as each source keeps it.
ghost use Rattle.std.specs.Prelude.{◌≡◌, false};
ghost use Rattle.nz_spec.specs.outside.Outside.{one_more};

use std::marker::Model;

// Whether a read has found the end, and whether one was made after that.
#[derive(Debug, Drop)]
pub(crate) struct Reads {
    has_ended: bool,
    read_late: bool,
}

impl Model for Reads {
    ghost use Rattle.nz_spec.specs.outside.Outside as spec;

    ghost Value = { spec.Reads };

    ghost view = { λ r. record { has_ended = r.has_ended; read_late = r.read_late } };
}

impl Reads {
    // Those of a source that wasn't read yet.
    pub(crate) fn new() -> Self
        ensures made { result ≡ record { has_ended = false; read_late = false } }
    {
        Reads {
            has_ended: false,
            read_late: false,
        }
    }

    // Takes in one more read, which found the end or didn't.
    pub(crate) fn add(&mut self, found: bool)
        ensures one_more { self.new ≡ one_more self.old found }
    {
        self.read_late = self.read_late || self.has_ended;
        self.has_ended = self.has_ended || found;
    }
}
