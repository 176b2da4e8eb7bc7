//! What commands that aren't refused ask of the session.
ghost use Rattle.std.specs.Prelude.{◌≡◌};
ghost use Rattle.nz_script.specs.commands.Script as script;
ghost use Rattle.nz_command.specs.Requests.{key_view, setting_view};
ghost use Rattle.nz_sort.specs.Acts.{AsksBy};

use nz_command::{InfoKey, Priority, Setting};
use nz_elaborate::Typed;
use nz_term::TermLit;

/// What a `get-info` tells whatever the state.
#[derive(Clone, Copy, Debug, PartialEq, Eq)]
pub enum Info {
    Name,
    Version,
    Authors,
    ErrorBehavior,
}

/// What a command that isn't refused asks of the session.
#[derive(Debug, Drop)]
pub enum Act {
    /// Nothing: it added a constant, a definition, an assertion or levels, and with that ended the last answer.
    Changed,
    /// That levels be forgotten which were taken off: those that are live are the first of those that were.
    Popped,
    /// That all levels be forgotten: one without items stands in their place.
    Cleared,
    /// The same, and that the options be set back.
    Reset,
    /// Whether the live assertions have a model in which these literals are true.
    Check(Vec<TermLit>),
    /// The model of the last answer.
    ShowModel,
    /// The values of these terms, which stand for the trees of its list, in the model of the last answer.
    ShowValues(Vec<Typed>),
    /// The reason of the last answer.
    ShowReason,
    ShowInfo(Info),
    /// How many levels were pushed.
    ShowLevels,
    /// That success be told from now on, or not.
    PrintSuccess(bool),
    /// Nothing: it sets what the program heeds nowhere.
    Nothing,
    /// That the literal be told which is its argument.
    Echo,
    /// The end of the session.
    Leave,
    /// To be told that the program doesn't take it: it changed nothing.
    Unsupported,
}

/// What a `get-info` asks.
pub(crate) fn info_act(key: InfoKey) -> Act
    ensures asks { AsksBy (script.info_asked (key_view key)) result }
{
    match key {
        InfoKey::Name => Act::ShowInfo(Info::Name),
        InfoKey::Version => Act::ShowInfo(Info::Version),
        InfoKey::Authors => Act::ShowInfo(Info::Authors),
        InfoKey::ErrorBehavior => Act::ShowInfo(Info::ErrorBehavior),
        InfoKey::AssertionStackLevels => Act::ShowLevels,
        InfoKey::ReasonUnknown => Act::ShowReason,
        InfoKey::Other => Act::Unsupported,
    }
}

/// What a `set-option` asks. Of the orders of goals only `lex` is taken.
pub(crate) fn setting_act(setting: Setting) -> Act
    ensures asks { AsksBy (script.option_set (setting_view setting)) result }
{
    match setting {
        Setting::PrintSuccess(prints) => Act::PrintSuccess(prints),
        Setting::ProduceModels(_) => Act::Nothing,
        Setting::Priority(Priority::Lex) => Act::Nothing,
        Setting::Priority(Priority::Box) => Act::Unsupported,
        Setting::Priority(Priority::Pareto) => Act::Unsupported,
        Setting::Other => Act::Unsupported,
    }
}
