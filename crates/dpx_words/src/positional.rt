ghost use Rattle.std.specs.Prelude.{◌≡◌, IfOk, IfErr, map, codes, string_bytes, unwrap_or, []};
ghost use Rattle.clap.specs.Words.{kind_of, found_of, rows_of, all_of};
ghost use Rattle.clap.specs.declared.error.kind.ErrorKind.TheVariants.{OutOfMemory};
ghost use Rattle.dpx_words.specs.Dashes.{HasNoDash};

use clap::{Arg, ArgAction, ArgMatches, Command, Error};
use std::alloc::Global;

/// The words, in order, as the values of one argument. None begins with a dash.
pub(crate) fn parse_positional<'a>(
    alloc: Global,
    words: &'a [String],
) -> Result<ArgMatches<'a>, Error>
    requires { HasNoDash (map string_bytes words.now) }
    ensures ok { IfOk result (λ m. unwrap_or (all_of (codes "words") (rows_of (found_of m))) []
        ≡ map string_bytes words.now) }
    ensures memory { IfErr result (λ e. kind_of e ≡ OutOfMemory) }
{
    let arg = Arg::new(alloc, "words")
        .action(ArgAction::Append)
        .num_args(1..);
    let command = Command::new(alloc, "dp_replay")
        .no_binary_name(true)
        .arg(arg)?;
    let _count = words.len();
    command.try_get_matches_from(words)
}
