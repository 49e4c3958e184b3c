// What clap finds in the words of a command.
ghost use Rattle.std.specs.Prelude.{◌≡◌, [], IfOk, option_map, unwrap_or};
ghost use Rattle.std.specs.Str.{bytes_eq};
ghost use Rattle.clap.specs.Words.{app_of, first_of, found_of, one_of, rows_of};
ghost use Rattle.tool_frame.specs.Options.{IsPlainApp, is_flag_on, number_in, rows_taken, starts_with};

use board_outside::{Word, Words};
use clap::error::ErrorKind;
use clap::{ArgMatches, Command};
use hart_words::WantOfMemory;

/// What is found in the words, of which the first is taken for the command's, where the command takes them.
pub fn matches_taken<'a>(
    command: Command<'a>,
    words: &'a [Word],
) -> Result<Option<ArgMatches<'a>>, WantOfMemory>
    requires { IsPlainApp (app_of command) }
    ensures { IfOk result (λ found. option_map (λ m. rows_of (found_of m)) found ≡ rows_taken (app_of command.entry) words.entry.now) }
{
    match command.try_get_matches_from(words) {
        Ok(matches) => Ok(Some(matches)),
        Err(error) => {
            if error.kind() == ErrorKind::OutOfMemory {
                Err(WantOfMemory)
            } else {
                Ok(None)
            }
        }
    }
}

fn is_text(a: &str, b: &str) -> bool
    ensures { result ≡ bytes_eq a.now b.now }
{
    a == b
}

/// Whether the first word is this one, which names a command.
pub fn names(words: &Words, command: &str) -> bool
    ensures { result ≡ starts_with command.now words.now }
{
    words.len() > 0 && is_text(words.get(0), command)
}

/// The text of an argument, or an empty one.
pub fn text_given<'a>(matches: &ArgMatches<'a>, name: &str) -> &'a str
    ensures { result.now ≡ unwrap_or (first_of name.now (rows_of (found_of matches.now))) [] }
{
    matches.get_str(name).unwrap_or("")
}

/// The text of an option, where it was given.
pub fn text_if_given<'a>(matches: &ArgMatches<'a>, name: &str) -> Option<&'a str>
    ensures { option_map (λ s. s.now) result ≡ first_of name.now (rows_of (found_of matches.now)) }
{
    matches.get_str(name)
}

/// The number of an argument, or 0.
pub fn number_given(matches: &ArgMatches<'_>, name: &str) -> u64
    ensures { result ≡ unwrap_or (number_in (one_of name.now (rows_of (found_of matches.now)))) 0 }
{
    matches.get_one::<u64>(name).unwrap_or(0)
}

/// Whether a flag was given.
pub fn is_given(matches: &ArgMatches<'_>, name: &str) -> bool
    ensures { result ≡ is_flag_on (one_of name.now (rows_of (found_of matches.now))) }
{
    matches.get_one::<bool>(name).unwrap_or(false)
}
