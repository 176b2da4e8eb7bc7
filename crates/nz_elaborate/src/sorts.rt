//! Sorts as they are written.
ghost use Rattle.std.specs.Prelude.{◌≡◌, Some, None, option_map};
ghost use Rattle.nz_script.specs.commands.Elaboration.{sort_named};
ghost use Rattle.nz_script.specs.commands.Script as script;
ghost use Rattle.nz_term.specs.Constants.{sort_of};
ghost use Rattle.nz_command.specs.Requests.{sort_view};

use nz_command::WrittenSort;
use nz_term::Sort;

/// The sort of a name.
fn sort_of_name(name: &[u8]) -> Option<Sort>
    ensures sort { option_map sort_of result ≡ sort_named name.now }
{
    if name == b"Bool".as_slice() {
        Some(Sort::Bool)
    } else if name == b"Int".as_slice() {
        Some(Sort::Int)
    } else if name == b"Real".as_slice() {
        Some(Sort::Real)
    } else {
        None
    }
}

/// The sort that is written so, if there is one. No list is a sort.
pub fn written_sort(sort: &WrittenSort<'_>) -> Option<Sort>
    ensures sort { option_map sort_of result ≡ script.sort_written (sort_view sort.now) }
{
    match sort {
        WrittenSort::Named(name) => sort_of_name(name.as_bytes()),
        WrittenSort::Listed => None,
    }
}

/// Whether it is a sort by a name that no sort has. A list, whatever stands in it, is none.
pub fn is_unknown_sort(sort: &WrittenSort<'_>) -> bool
    ensures unknown { result ≡ script.is_unknown_sort (sort_view sort.now) }
{
    match sort {
        WrittenSort::Named(name) => sort_of_name(name.as_bytes()).is_none(),
        WrittenSort::Listed => false,
    }
}
