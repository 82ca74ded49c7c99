// What `clap` finds in words by the line of a command.
ghost use Rattle.std.specs.Prelude.{◌≡◌, ◌≢◌, true, false, [], IfOk, IfSome, IfNone, option_map};
ghost use Rattle.clap.specs.Words.{found_of, rows_of, first_of, kind_of};
ghost use Rattle.command_words.specs.Lines.{plain_line, plain_texts, is_plain, faults_for, rows_for};

use crate::line::{Line, command_for};
use clap::error::ErrorKind;
use clap::{ArgMatches, Error};
use std::alloc::{AllocError, Global};

fn is_memory(error: &Error) -> bool
    ensures { result ≡ false → kind_of error.now ≢ ErrorKind.OutOfMemory }
{
    matches!(error.kind(), ErrorKind::OutOfMemory)
}

/// The values that the words give, the first of which is the command's name; None where `clap` refuses them.
pub fn matches_for<'a>(
    alloc: Global,
    line: Line<'a>,
    words: &'a [&'a str],
) -> Result<Option<ArgMatches<'a>>, AllocError>
    requires { is_plain (plain_line line) ≡ true }
    ensures taken { IfOk result (λ found. IfSome found (λ m. faults_for (plain_line line.entry) (plain_texts words.now) ≡ [])) }
    ensures rows { IfOk result (λ found. IfSome found (λ m. rows_of (found_of m) ≡ rows_for (plain_line line.entry) (plain_texts words.now))) }
    ensures refused { IfOk result (λ found. IfNone found (faults_for (plain_line line.entry) (plain_texts words.now) ≢ [])) }
{
    let command = command_for(alloc, line)?;
    match command.try_get_matches_from(words) {
        Ok(matches) => Ok(Some(matches)),
        Err(error) => {
            if is_memory(&error) {
                return Err(AllocError);
            }
            Ok(None)
        }
    }
}

/// The value of an argument, if it is given.
pub fn value<'a>(matches: &ArgMatches<'a>, name: &str) -> Option<&'a str>
    ensures { option_map (λ text. text.now) result ≡ first_of name.now (rows_of (found_of matches.now)) }
{
    matches.get_str(name)
}
