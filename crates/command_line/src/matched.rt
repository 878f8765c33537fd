// The values in the matches of a command line.
ghost use Rattle.std.specs.Prelude.{◌≡◌, codes, is_some, map, option_map};
ghost use Rattle.clap.specs.Matches.{found_of};
ghost use Rattle.clap.specs.Walk.{all_of, first_of, rows_of};
ghost use Rattle.command_line.specs.Arguments.{folder_of, has_words, is_set, is_there, word_of};
ghost use Rattle.command_line.specs.Scriptd.{calls_in, calls_named};

use clap::ArgMatches;
use sys_table::CallTable;

/// The value of an option.
#[tactic(auto, using(crate::proofs::Rows::first))]
pub(crate) fn word_at<'a>(matches: &ArgMatches<'a>, id: &str) -> Option<&'a str>
    ensures { option_map (λ w. w.now) result ≡ first_of id.now (rows_of (found_of matches.now)) }
{
    matches.get_str(id)
}

/// The value of a required option.
pub(crate) fn required_at<'a>(matches: &ArgMatches<'a>, id: &str) -> &'a str
    ensures { result.now ≡ word_of id.now (rows_of (found_of matches.now)) }
{
    word_at(matches, id).unwrap_or("")
}

/// The folder that an option names.
pub(crate) fn folder_at<'a>(matches: &ArgMatches<'a>, id: &str) -> &'a str
    ensures { result.now ≡ folder_of id.now (rows_of (found_of matches.now)) }
{
    word_at(matches, id).unwrap_or(".")
}

/// The calls of the version of Linux that a word names, if it has a table.
fn calls_named(word: Option<&str>) -> Option<CallTable>
    ensures { result ≡ calls_named (option_map (λ w. w.now) word.entry) }
{
    match word {
        Some(version) => CallTable::of_linux(version),
        None => Some(CallTable::Linux5_8),
    }
}

/// The calls that scripts and profiles can name.
pub(crate) fn calls_at(matches: &ArgMatches) -> CallTable
    ensures { result ≡ calls_in (rows_of (found_of matches.now)) }
{
    calls_named(word_at(matches, "calls")).unwrap_or(CallTable::Linux5_8)
}

/// Whether the version of Linux has a table of calls.
pub(crate) fn has_calls(matches: &ArgMatches) -> bool
    ensures { result ≡ is_some (calls_named (first_of (codes "calls") (rows_of (found_of matches.now)))) }
{
    calls_named(word_at(matches, "calls")).is_some()
}

/// Whether a flag is set. clap sets it to true or false.
pub(crate) fn is_set(matches: &ArgMatches, id: &str) -> bool
    ensures { result ≡ is_set id.now (rows_of (found_of matches.now)) }
{
    word_at(matches, id).unwrap_or("") == "true"
}

/// Whether an option with a value is given.
pub(crate) fn is_there(matches: &ArgMatches, id: &str) -> bool
    ensures { result ≡ is_there id.now (rows_of (found_of matches.now)) }
{
    word_at(matches, id).is_some()
}

/// Whether there are positional arguments.
pub(crate) fn has_words(matches: &ArgMatches, id: &str) -> bool
    ensures { result ≡ has_words id.now (rows_of (found_of matches.now)) }
{
    words_at(matches, id).is_some()
}

/// The positional arguments.
#[tactic(auto, using(crate::proofs::Rows::all))]
pub(crate) fn words_at<'m, 'a>(matches: &'m ArgMatches<'a>, id: &str) -> Option<&'m [&'a str]>
    ensures { option_map (λ s. map (λ w. w.now) s.now) result
        ≡ all_of id.now (rows_of (found_of matches.now)) }
{
    matches.get_strs(id)
}
