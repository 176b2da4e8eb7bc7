//! Of `nz_session`: each public call of the session once on its happy path, and a check that finds no memory.
ghost use Rattle.std.specs.Prelude.{◌≡◌, List, []};
ghost use Rattle.nz_spec.specs.terms.Term.{Term};

use crate::checks::{holds, is};
use crate::run::{ROOM, sink_is, sink_with};
use nz_base::{Error, Memory, PlainSink, Work};
use nz_engine::Engine;
use nz_engine::laws::engines_stand;
use nz_log::{ClauseId, Step};
use nz_reply::{Journal, Reply};
use nz_search::{Decide, Note, Stop, Verdict};
use nz_session::{Fed, Session};
use nz_term::{TermId, TermLit, Terms};
use std::alloc::{AllocError, Global};
use std::process::Abort;
use std::test::Fail;

/// The most units of work that a check may use, where it is to come to its end.
const UNITS: u64 = 100;

/// One list more than may stand in one another.
const TOO_DEEP: usize = 201;

/// An engine of which each check but the first finds no memory.
#[derive(Drop)]
struct OnceOnly {
    engine: Engine,
    has_checked: bool,
}

impl Decide for OnceOnly {
    ghost use Rattle.nz_engine.specs.Engines.{Begins, clause_at};
    ghost use Rattle.nz_engine.specs.Lists.{StandsAt, starts_at};

    ghost levels = { λ e. e.engine.levels };

    ghost table = { λ e. e.engine.table };

    ghost clause = { λ e id. clause_at e.engine id };

    ghost begins = { λ e ts. Begins e.engine ts };

    ghost stands = { λ e ns q work. StandsAt e.engine ns q work };

    ghost starts = { λ e ns q work begun none. starts_at e.engine ns q work begun none };

    fn push(&mut self) -> Result<(), Memory> {
        self.engine.push()
    }

    fn pop(&mut self, count: usize) {
        self.engine.pop(count);
    }

    fn add(&mut self, terms: &Terms, term: TermId) -> Result<(), Memory> {
        self.engine.add(terms, term)
    }

    fn check(
        &mut self,
        terms: &Terms,
        assumed: &[TermLit],
        work: &mut Work<Note>,
    ) -> Result<Verdict, Stop> {
        if self.has_checked {
            engines_stand();
            return Err(Stop::Memory);
        }
        self.has_checked = true;
        self.engine.check(terms, assumed, work)
    }

    fn steps(&self, id: ClauseId) -> Result<Vec<Step<'_>>, Memory> {
        self.engine.steps(id)
    }
}

/// A script's session: how it stood after its piece and at its end, and what it kept.
#[derive(Drop)]
struct Outcome {
    fed: Fed,
    ended: Fed,
    journal: Journal,
}

/// Feeds a session of so many units a script in one piece, and ends it there, unless it has ended.
fn run_script<E: Decide>(
    alloc: Global,
    engine: E,
    units: u64,
    script: &[u8],
    sink: &mut PlainSink,
) -> Result<Outcome, Memory>
    requires told { E.levels engine ≡ [] }
    requires table { E.table engine ≡ [] }
    requires begins { (ts : List Term) → E.begins engine ts }
{
    let mut session = Session::new(alloc, engine, units)?;
    let fed = session.feed(script, sink);
    let ended = match fed {
        Fed::Going => session.finish(sink),
        Fed::Exited => fed,
        Fed::SinkFault => fed,
        Fed::Cut => fed,
    };
    let (journal, terms) = session.into_kept();
    drop(terms);
    Ok(Outcome {
        fed,
        ended,
        journal,
    })
}

/// The same of the engine, with the units that a check may use.
fn run_engine(alloc: Global, script: &[u8], sink: &mut PlainSink) -> Result<Outcome, Memory> {
    run_script(alloc, Engine::new(alloc)?, UNITS, script, sink)
}

/// A script in one piece, and what is written.
struct ScriptCase {
    script: &'static [u8],
    replies: &'static [u8],
}

/// The script is answered so, and ends so, where a check may use so many units.
fn ends_so(
    rt: &impl Abort,
    alloc: Global,
    units: u64,
    told: &ScriptCase,
    wanted: Fed,
) -> Result<(), Fail> {
    let mut sink = sink_with(alloc, ROOM)?;
    let ended = run_script(alloc, Engine::new(alloc)?, units, told.script, &mut sink)?;
    is(rt, ended.ended, wanted);
    sink_is(rt, &sink, told.replies);
    Ok(())
}

/// The same of one after which the session goes on.
fn tells(rt: &impl Abort, alloc: Global, units: u64, told: &ScriptCase) -> Result<(), Fail> {
    ends_so(rt, alloc, units, told, Fed::Going)
}

/// Lists that nest one deeper than they may, and a command that stays open.
fn too_deep(alloc: Global) -> Result<Vec<u8>, AllocError> {
    let mut script = vec![in alloc; b'('; TOO_DEEP]?;
    script.resize(2 * TOO_DEEP, b')')?;
    script.extend_from_slice(b"(check-sat")?;
    Ok(script)
}

/// The two replies that it gets.
fn is_refused(journal: &Journal) -> bool {
    match journal.as_slice() {
        [deep, unclosed] => {
            matches!(&deep.reply, Reply::Error(Error::Limit))
                && matches!(&unclosed.reply, Reply::Error(Error::Incomplete))
        }
        _ => false,
    }
}

#[test]
fn test_a_session_answers_what_is_no_command(rt: HostRuntime) -> Result<(), Fail> {
    let mut sink = sink_with(rt.alloc(), ROOM)?;
    let script = too_deep(rt.alloc())?;
    let ended = run_engine(rt.alloc(), script.as_slice(), &mut sink)?;
    holds(&rt, is_refused(&ended.journal), "two errors");
    is(&rt, ended.ended, Fed::Going);
    Ok(())
}

/// How a script's session stood after its piece and at its end, and how many replies it kept.
fn has_stood(rt: &impl Abort, outcome: &Outcome, fed: Fed, ended: Fed, kept: usize) {
    is(rt, outcome.fed, fed);
    is(rt, outcome.ended, ended);
    is(rt, outcome.journal.as_slice().len(), kept);
}

const EXIT: &[u8] = b"(declare-const p Bool)(assert p)(check-sat)(get-model)(exit)(check-sat)";

#[test]
fn test_a_session_answers_to_its_exit(rt: HostRuntime) -> Result<(), Fail> {
    let mut sink = sink_with(rt.alloc(), ROOM)?;
    let ended = run_engine(rt.alloc(), EXIT, &mut sink)?;
    has_stood(&rt, &ended, Fed::Exited, Fed::Exited, 5);
    sink_is(&rt, &sink, b"sat\n(\n(define-fun p () Bool true)\n)\n");
    Ok(())
}

#[test]
fn test_a_session_ends_with_its_script(rt: HostRuntime) -> Result<(), Fail> {
    let mut sink = sink_with(rt.alloc(), ROOM)?;
    let ended = run_engine(rt.alloc(), b"(check-sat", &mut sink)?;
    has_stood(&rt, &ended, Fed::Going, Fed::Going, 1);
    sink_is(&rt, &sink, b"(error \"10 incomplete command\")\n");
    Ok(())
}

const CHECKED_TWICE: &[u8] = b"(declare-const p Bool)(assert p)(check-sat)(check-sat)(get-model)";

/// Runs a script by an engine that checks once.
fn run_once(alloc: Global, script: &[u8], sink: &mut PlainSink) -> Result<Outcome, Memory> {
    let engine = OnceOnly {
        engine: Engine::new(alloc)?,
        has_checked: false,
    };
    run_script(alloc, engine, UNITS, script, sink)
}

#[test]
fn test_a_model_outlives_a_check_without_memory(rt: HostRuntime) -> Result<(), Fail> {
    let mut sink = sink_with(rt.alloc(), ROOM)?;
    let ended = run_once(rt.alloc(), CHECKED_TWICE, &mut sink)?;
    is(&rt, ended.ended, Fed::Going);
    let wanted = b"sat\n(error \"11 out of memory\")\n(\n(define-fun p () Bool true)\n)\n";
    sink_is(&rt, &sink, wanted);
    Ok(())
}

const REASON: ScriptCase = ScriptCase {
    script: b"(declare-const a Bool)(declare-const b Bool)(assert (or a b))
        (check-sat)(get-info :reason-unknown)(assert x)(get-info :reason-unknown)
        (assert b)(get-info :reason-unknown)",
    replies: b"unknown\n(:reason-unknown (spent 0))\n(error \"2 unknown symbol\")\n\
        (:reason-unknown (spent 0))\n(error \"7 no answer to show\")\n",
};

#[test]
fn test_a_reason_is_shown_until_an_assertion_is_accepted(rt: HostRuntime) -> Result<(), Fail> {
    tells(&rt, rt.alloc(), 0, &REASON)
}

const ONLY_THE_LAST: ScriptCase = ScriptCase {
    script: b"(get-model)(get-info :reason-unknown)(check-sat)(get-info :reason-unknown)
        (assert false)(check-sat)(get-model)",
    replies: b"(error \"7 no answer to show\")\n(error \"7 no answer to show\")\nsat\n\
        (error \"7 no answer to show\")\nunsat\n(error \"7 no answer to show\")\n",
};

#[test]
fn test_only_what_was_answered_last_is_shown(rt: HostRuntime) -> Result<(), Fail> {
    tells(&rt, rt.alloc(), UNITS, &ONLY_THE_LAST)
}

const REFUSALS: ScriptCase = ScriptCase {
    script: b"(declare-const p Bool)(assert q)(assert (not p p))
        (set-info :size 170141183460469231731687303715884105728)(get-model)(declare-const p Bool)",
    replies: b"(error \"2 unknown symbol\")\n(error \"3 sort\")\n\
        (error \"5 number too wide\")\n(error \"7 no answer to show\")\n\
        (error \"9 already declared\")\n",
};

#[test]
fn test_a_refusal_is_told_by_its_number(rt: HostRuntime) -> Result<(), Fail> {
    tells(&rt, rt.alloc(), UNITS, &REFUSALS)
}

const VALUES: ScriptCase = ScriptCase {
    script: b"(get-value (true))(declare-const p Bool)(assert p)(check-sat)
        (get-value (p (ite p 1 2) (/ 1 2)))",
    replies: b"(error \"7 no answer to show\")\nsat\n\
        ((p true) ((ite p 1 2) 1) ((/ 1 2) (/ 1.0 2.0)))\n",
};

#[test]
fn test_values_are_told_of_terms_over_numbers(rt: HostRuntime) -> Result<(), Fail> {
    tells(&rt, rt.alloc(), UNITS, &VALUES)
}

const WIDE: ScriptCase = ScriptCase {
    script: b"(check-sat)(get-value ((+ 170141183460469231731687303715884105727 1)))",
    replies: b"sat\n(((+ 170141183460469231731687303715884105727 1) \
        (wide add 170141183460469231731687303715884105727 1)))\n",
};

#[test]
fn test_an_operation_that_leaves_the_numbers_is_told(rt: HostRuntime) -> Result<(), Fail> {
    tells(&rt, rt.alloc(), UNITS, &WIDE)
}

const SUCCESS: ScriptCase = ScriptCase {
    script: b"(declare-const p Bool)(set-option :print-success true)(assert p)
        (set-info :status sat)(set-option :print-success false)(assert p)(exit)",
    replies: b"success\nsuccess\nsuccess\n",
};

#[test]
fn test_success_is_told_from_the_option_on(rt: HostRuntime) -> Result<(), Fail> {
    ends_so(&rt, rt.alloc(), UNITS, &SUCCESS, Fed::Exited)
}

const INFOS: ScriptCase = ScriptCase {
    script: b"(echo \"say \"\"no\"\"\")(get-info :name)(get-info :assertion-stack-levels)",
    replies: b"\"say \"\"no\"\"\"\n(:name \"nuz\")\n(:assertion-stack-levels 0)\n",
};

#[test]
fn test_texts_and_infos_are_told(rt: HostRuntime) -> Result<(), Fail> {
    tells(&rt, rt.alloc(), UNITS, &INFOS)
}

const REALS: ScriptCase = ScriptCase {
    script: b"(declare-const a Real)(declare-const b Real)(assert (< a b))(assert (<= (+ a b) 3))
        (assert (= a 1))(check-sat)(get-value ((* 2 a)))(assert (>= b 2.5))(check-sat)",
    replies: b"sat\n(((* 2 a) 2.0))\nunsat\n",
};

#[test]
fn test_reals_are_checked(rt: HostRuntime) -> Result<(), Fail> {
    tells(&rt, rt.alloc(), UNITS, &REALS)
}

const STOPPED: ScriptCase = ScriptCase {
    script: b"(declare-const x Real)
        (assert (< x (+ 170141183460469231731687303715884105727 1.0)))
        (check-sat)(get-info :reason-unknown)(get-model)",
    replies: b"unknown\n\
        (:reason-unknown (wide add 170141183460469231731687303715884105727 1))\n\
        (error \"7 no answer to show\")\n",
};

#[test]
fn test_a_check_that_stops_is_told_with_the_operation(rt: HostRuntime) -> Result<(), Fail> {
    tells(&rt, rt.alloc(), UNITS, &STOPPED)
}

const INTEGERS: ScriptCase = ScriptCase {
    script: b"(define-fun two () Int 2)(check-sat)(get-value ((+ two two)))
        (declare-const x Int)(assert (= (* x x) two))(check-sat)",
    replies: b"sat\n(((+ two two) 4))\n(error \"4 not linear\")\nunsupported\n",
};

#[test]
fn test_integers_are_defined_and_not_checked(rt: HostRuntime) -> Result<(), Fail> {
    tells(&rt, rt.alloc(), UNITS, &INTEGERS)
}

const ASSUMED: ScriptCase = ScriptCase {
    script: b"(declare-const p Bool)(declare-const q Bool)(assert (or p q))
        (check-sat-assuming ((not p)))(get-value (p q))(check-sat-assuming ((not p) (not q)))
        (check-sat-assuming (p (not p)))(get-model)(check-sat)",
    replies: b"sat\n((p false) (q true))\nunsat\nunsat\n\
        (error \"7 no answer to show\")\nsat\n",
};

#[test]
fn test_what_is_assumed_is_for_one_check(rt: HostRuntime) -> Result<(), Fail> {
    tells(&rt, rt.alloc(), UNITS, &ASSUMED)
}

const POPPED: ScriptCase = ScriptCase {
    script: b"(declare-const p Bool)(push)(assert p)(check-sat)(push)(assert (not p))
        (check-sat)(pop)(check-sat)(pop)(get-model)(assert (not p))(check-sat)(get-value (p))",
    replies: b"sat\nunsat\nsat\n(error \"7 no answer to show\")\nsat\n((p false))\n",
};

#[test]
fn test_what_is_asserted_goes_with_its_level(rt: HostRuntime) -> Result<(), Fail> {
    tells(&rt, rt.alloc(), UNITS, &POPPED)
}

const DECLARED_AGAIN: ScriptCase = ScriptCase {
    script: b"(push)(declare-const p Bool)(assert p)(check-sat)(pop)(assert p)
        (declare-const p Real)(assert (< p 1))(check-sat)(assert (> p 1))(check-sat)(pop)",
    replies: b"sat\n(error \"2 unknown symbol\")\nsat\nunsat\n(error \"8 pop below zero\")\n",
};

#[test]
fn test_a_name_of_a_popped_level_is_free(rt: HostRuntime) -> Result<(), Fail> {
    tells(&rt, rt.alloc(), UNITS, &DECLARED_AGAIN)
}

const POPPED_UNDECIDED: ScriptCase = ScriptCase {
    script: b"(declare-const a Bool)(declare-const b Bool)(push)(assert (or a b))(check-sat)
        (get-info :reason-unknown)(pop)(get-info :reason-unknown)(check-sat)",
    replies: b"unknown\n(:reason-unknown (spent 0))\n(error \"7 no answer to show\")\nsat\n",
};

#[test]
fn test_a_pop_ends_an_answer_that_none_was_found_for(rt: HostRuntime) -> Result<(), Fail> {
    tells(&rt, rt.alloc(), 0, &POPPED_UNDECIDED)
}

const RESETS: ScriptCase = ScriptCase {
    script: b"(set-option :print-success true)(declare-const p Bool)(push 3)(assert false)
        (check-sat)(reset-assertions)(get-info :assertion-stack-levels)(assert p)(check-sat)
        (reset)(declare-const p Bool)(assert p)(check-sat)",
    replies: b"success\nsuccess\nsuccess\nsuccess\nunsat\nsuccess\n\
        (:assertion-stack-levels 0)\n(error \"2 unknown symbol\")\nsat\nsat\n",
};

#[test]
fn test_resets_forget_what_is_live(rt: HostRuntime) -> Result<(), Fail> {
    tells(&rt, rt.alloc(), UNITS, &RESETS)
}
