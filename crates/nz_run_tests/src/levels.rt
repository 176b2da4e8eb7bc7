//! Levels through the top call: seeded scripts of nested levels, of which each check is answered as by a fresh run of what is live alone;
//! and many levels, one in another and one after another.
use crate::checks::holds;
use crate::run::run_pieces;
use nz_base::{Memory, PlainSink};
use nz_run::DONE;
use std::alloc::Global;
use std::ops::Range;
use std::process::Abort;
use std::test::Fail;

/// How many steps a script has.
const STEPS: u64 = 16;

/// How many bytes the replies to a script may have.
const ROOM: usize = 20_000;

/// How many bytes a read brings.
const PIECE: usize = 4096;

const DECLARATIONS: &str = "(declare-const a Bool)(declare-const b Bool)
    (declare-const x Real)(declare-const y Real)
    (define-fun c () Bool (<= (+ x y) 2))
    (define-fun d () Bool (< x y))
    (define-fun e () Bool (>= x 1))";

const STEP_KINDS: &[&str] = &[
    "push", "pop", "assert", "assert", "check", "assume", "integer",
];

/// A check over an integer, whose level goes again.
const INTEGER: &str = "(push)(declare-const i Int)(assert (> i 0))(check-sat)(pop)";

const LITERALS: &[&str] = &[
    "a", "b", "c", "d", "e", "(not a)", "(not b)", "(not c)", "(not d)", "(not e)",
];

/// A row of numbers that looks like chance.
#[derive(Drop)]
struct Chance(u64);

impl Chance {
    /// One of these words; the first where there is none.
    fn of(&mut self, words: &[&'static str]) -> &'static str {
        self.0 = self
            .0
            .wrapping_mul(6_364_136_223_846_793_005)
            .wrapping_add(1_442_695_040_888_963_407);
        let place = (self.0 >> 33) as usize;
        match place.checked_rem(words.len()) {
            Some(place) => words.get(place).copied().unwrap_or(""),
            None => "",
        }
    }
}

/// A script so far, with what is live of it by level, and the replies that are right.
#[derive(Drop)]
struct Script {
    text: String,
    levels: Vec<String>,
    replies: String,
}

impl Script {
    fn new(alloc: Global) -> Result<Script, Fail> {
        let mut levels = Vec::new(alloc);
        levels.push(String::new(alloc))?;
        Ok(Script {
            text: String::from_str(alloc, DECLARATIONS)?,
            levels,
            replies: String::new(alloc),
        })
    }
}

/// Takes a step by chance.
fn step(alloc: Global, script: &mut Script, chance: &mut Chance) -> Result<(), Fail> {
    match chance.of(STEP_KINDS) {
        "push" => push(alloc, script),
        "pop" => pop(script),
        "assert" => {
            let (one, other) = (chance.of(LITERALS), chance.of(LITERALS));
            assert_either(alloc, script, one, other)
        }
        "assume" => {
            let (one, other) = (chance.of(LITERALS), chance.of(LITERALS));
            let assuming = format!(in alloc; "(check-sat-assuming ({one} {other}))")?;
            check(alloc, script, &assuming)
        }
        "integer" => check(alloc, script, INTEGER),
        _ => check(alloc, script, "(check-sat)"),
    }
}

fn push(alloc: Global, script: &mut Script) -> Result<(), Fail> {
    script.levels.push(String::new(alloc))?;
    script.text.push_str("(push)")?;
    Ok(())
}

fn pop(script: &mut Script) -> Result<(), Fail> {
    if script.levels.len() > 1 {
        drop(script.levels.pop());
        script.text.push_str("(pop)")?;
    }
    Ok(())
}

fn assert_either(alloc: Global, script: &mut Script, one: &str, other: &str) -> Result<(), Fail> {
    let assertion = format!(in alloc; "(assert (or {one} {other}))")?;
    script.text.push_str(&assertion)?;
    if let Some(level) = script.levels.last_mut() {
        level.push_str(&assertion)?;
    }
    Ok(())
}

/// Adds a check, with the reply of a fresh run of what is live.
fn check(alloc: Global, script: &mut Script, check: &str) -> Result<(), Fail> {
    script.text.push_str(check)?;
    let mut fresh = String::from_str(alloc, DECLARATIONS)?;
    for level in &script.levels {
        fresh.push_str(level)?;
    }
    fresh.push_str(check)?;
    let reply = replies(alloc, &fresh)?;
    script.replies.push_str(&reply)?;
    Ok(())
}

/// The replies to a script.
fn replies(alloc: Global, script: &str) -> Result<String, Fail> {
    let mut out = PlainSink::new(alloc, ROOM)?;
    let ended = run_pieces(alloc, script.as_bytes(), PIECE, &mut out)?;
    if ended.status != DONE {
        return Err(Fail::from("an error was replied"));
    }
    Ok(String::from_utf8_lossy(alloc, out.bytes())?)
}

/// Whether each check of a script by this chance is answered as by a fresh run.
fn is_as_fresh(alloc: Global, seed: u64) -> Result<bool, Fail> {
    let mut chance = Chance(seed);
    let mut script = Script::new(alloc)?;
    for _ in 0..STEPS {
        step(alloc, &mut script, &mut chance)?;
    }
    let told = replies(alloc, &script.text)?;
    Ok(told.as_str() == script.replies.as_str())
}

/// Tries the scripts of these seeds; fifty take a good part of the minute that a test has.
fn try_seeds(rt: &impl Abort, alloc: Global, seeds: Range<u64>) -> Result<(), Fail> {
    for seed in seeds {
        let same = is_as_fresh(alloc, seed)?;
        holds(rt, same, "the replies of fresh runs");
    }
    Ok(())
}

#[test]
fn test_checks_of_seeds_0_to_49_are_as_fresh(rt: HostRuntime) -> Result<(), Fail> {
    try_seeds(&rt, rt.alloc(), 0..50)
}

#[test]
fn test_checks_of_seeds_50_to_99_are_as_fresh(rt: HostRuntime) -> Result<(), Fail> {
    try_seeds(&rt, rt.alloc(), 50..100)
}

#[test]
fn test_checks_of_seeds_100_to_149_are_as_fresh(rt: HostRuntime) -> Result<(), Fail> {
    try_seeds(&rt, rt.alloc(), 100..150)
}

#[test]
fn test_checks_of_seeds_150_to_199_are_as_fresh(rt: HostRuntime) -> Result<(), Fail> {
    try_seeds(&rt, rt.alloc(), 150..200)
}

#[test]
fn test_checks_of_seeds_200_to_249_are_as_fresh(rt: HostRuntime) -> Result<(), Fail> {
    try_seeds(&rt, rt.alloc(), 200..250)
}

#[test]
fn test_checks_of_seeds_250_to_299_are_as_fresh(rt: HostRuntime) -> Result<(), Fail> {
    try_seeds(&rt, rt.alloc(), 250..300)
}

#[test]
fn test_checks_of_seeds_300_to_349_are_as_fresh(rt: HostRuntime) -> Result<(), Fail> {
    try_seeds(&rt, rt.alloc(), 300..350)
}

#[test]
fn test_checks_of_seeds_350_to_399_are_as_fresh(rt: HostRuntime) -> Result<(), Fail> {
    try_seeds(&rt, rt.alloc(), 350..400)
}

#[test]
fn test_checks_of_seeds_400_to_449_are_as_fresh(rt: HostRuntime) -> Result<(), Fail> {
    try_seeds(&rt, rt.alloc(), 400..450)
}

#[test]
fn test_checks_of_seeds_450_to_499_are_as_fresh(rt: HostRuntime) -> Result<(), Fail> {
    try_seeds(&rt, rt.alloc(), 450..500)
}

/// A script of so many times the one text, and then the other.
fn repeated(alloc: Global, count: usize, first: &str, then: &str) -> Result<String, Memory> {
    let mut text = String::new(alloc);
    for _ in 0..count {
        text.push_str(first)?;
    }
    for _ in 0..count {
        text.push_str(then)?;
    }
    Ok(text)
}

/// Whether the script, behind the declarations, is answered so.
fn answers(alloc: Global, script: &str, wanted: &str) -> Result<bool, Fail> {
    let mut text = String::from_str(alloc, DECLARATIONS)?;
    text.push_str(script)?;
    let told = replies(alloc, &text)?;
    Ok(told.as_str() == wanted)
}

#[test]
fn test_a_thousand_levels_are_pushed_and_popped(rt: HostRuntime) -> Result<(), Fail> {
    let mut script = repeated(rt.alloc(), 1000, "(push)(assert (or a c))", "(pop)")?;
    script.push_str("(assert a)(get-info :assertion-stack-levels)(check-sat-assuming ((not a)))")?;
    let same = answers(rt.alloc(), &script, "(:assertion-stack-levels 0)\nunsat\n")?;
    holds(&rt, same, "no level, and unsat");
    Ok(())
}

const SATISFIED: &str = "(push)(assert (and a d (not e)))(check-sat)(pop)";

const REFUTED: &str = "(push 2)(assert (and c (> (+ x y) 3)))(check-sat)(pop 2)";

#[test]
fn test_levels_come_and_go(rt: HostRuntime) -> Result<(), Fail> {
    let script = repeated(rt.alloc(), 200, SATISFIED, REFUTED)?;
    let wanted = repeated(rt.alloc(), 200, "sat\n", "unsat\n")?;
    let same = answers(rt.alloc(), &script, &wanted)?;
    holds(&rt, same, "the replies of each turn");
    Ok(())
}
