//! The limits of single commands.
ghost use Rattle.std.specs.Prelude.{◌≡◌, length, nat_lt, option_map};
ghost use Rattle.nz_script.specs.live.Live.{State, constants_of, pushed_levels};
ghost use Rattle.nz_script.specs.commands.Limits as limits;
ghost use Rattle.nz_command.specs.View.{number_view};
ghost use Rattle.nz_command.specs.Requests.{count_view, request};

use nz_command::{Command, LevelCount, Number};

/// The most live constants that there may be.
const CONSTANT_LIMIT: usize = 65_535;

/// The most levels that may be pushed.
const LEVEL_LIMIT: u128 = 1000;

/// The command goes beyond a limit in its own way, where there are so many live constants and so many levels are pushed.
pub(crate) fn passes_limit(constant_count: usize, level_count: usize, command: &Command) -> bool
    ensures limit { (s : State) → pushed_levels s ≡ level_count → length (constants_of s) ≡ constant_count → result ≡ limits.passes_limit s (request command.now) }
{
    match command {
        Command::Declare(_, _, _) => constant_count >= CONSTANT_LIMIT,
        Command::Push(count) => are_too_many(level_count, *count),
        Command::AssertSoft(_, attributes) => is_zero_weight(attributes.weight),
        _ => false,
    }
}

/// So many levels more are too many where so many are pushed.
fn are_too_many(level_count: usize, count: LevelCount) -> bool
    ensures many { (s : State) → pushed_levels s ≡ level_count → result ≡ limits.are_too_many s (count_view count) }
{
    match (LEVEL_LIMIT.checked_sub(level_count as u128), count) {
        (Some(left), LevelCount::Within(count)) => count > left,
        _ => true,
    }
}

fn is_zero_weight(weight: Option<Number>) -> bool
    ensures zero { result ≡ limits.is_zero_weight (option_map number_view weight) }
{
    match weight {
        Some(Number::Integer(number)) => number == 0,
        Some(Number::Decimal(digits, _)) => digits == 0,
        _ => false,
    }
}
