ghost use Rattle.std.specs.Prelude.{◌≡◌, map, string_bytes, unwrap_or, codes, []};
ghost use Rattle.std.specs.List.{list_any};
ghost use Rattle.clap.specs.Words.{found_of, rows_of, all_of};
ghost use Rattle.dpx_words.specs.Dashes.{has_dash};
ghost use Rattle.dpx_words.specs.Reading.{WordsRead, command_in, command_of};

use crate::positional::parse_positional;
use crate::verbs::read_command;
use crate::{Command, WordsEnd};
use clap::ArgMatches;
use std::alloc::Global;

/// Reads the words of the command line, without the program's name. Words of which one begins with a dash have no
/// reading, whatever the others are.
#[tactic(auto, unfolding(crate::specs::Reading::command_in))]
pub fn read_words(alloc: Global, words: &[String]) -> Result<Command, WordsEnd>
    ensures { WordsRead (command_in words.now) result }
{
    if any_dash(words) {
        return Err(WordsEnd::Usage);
    }
    match parse_positional(alloc, words) {
        Ok(matches) => read_matches(alloc, &matches),
        Err(_) => Err(WordsEnd::Memory),
    }
}

fn any_dash(words: &[String]) -> bool
    ensures { result ≡ list_any has_dash (map string_bytes words.now) }
{
    for word in words {
        if begins_with_dash(word.as_str()) {
            return true;
        }
    }
    false
}

fn begins_with_dash(word: &str) -> bool
    ensures { result ≡ has_dash word.now }
{
    match word.as_bytes() {
        [first, ..] => *first == b'-',
        [] => false,
    }
}

fn read_matches(alloc: Global, matches: &ArgMatches) -> Result<Command, WordsEnd>
    ensures { WordsRead (command_of (unwrap_or (all_of (codes "words") (rows_of (found_of matches.now))) [])) result }
{
    match matches.get_strs("words") {
        Some(words) => read_command(alloc, words),
        None => read_command(alloc, &[]),
    }
}
