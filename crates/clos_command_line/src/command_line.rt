//! The command line: its words, read by clap.
ghost use Rattle.std.specs.Prelude.{◌≡◌, ℕ, List, IfOk, IfErr, map, option_map, true, false};
ghost use Rattle.std.specs.Prelude.{[], codes, unwrap_or};
ghost use Rattle.std.specs.Option.{option_map_or};
ghost use Rattle.std.specs.Str.{bytes_eq};
ghost use Rattle.std.specs.Str.Parse.{digits_value, without_leading_plus};
ghost use Rattle.clap.specs.Words.{FailsBy, IsUnsignedIn, app_of, fault_of, kind_of};
ghost use Rattle.clap.specs.Words.{first_value, found_of, matched_of, matches_of, raw_values};
ghost use Rattle.clap.specs.Words.{rows_of, rule_of, takes};
ghost use Rattle.clos_command_line.specs.CommandLine.{AreInRange, AreMatched, HasNumber, clos_command};
ghost use Rattle.clos_command_line.specs.CommandLine.{files_rule, flag_rule, number_rule};

use crate::options::{MAX_DEPTH, MAX_STEPS, Settings};
use clap::builder::ValueParser;
use clap::error::ErrorKind;
use clap::{Arg, ArgAction, ArgMatches, Command, Error};
use std::alloc::{AllocError, Global};
use std::convert::AsStr;

/// The version that `--version` shows.
pub const VERSION: &str = "0.1.0";

const ECHO_HELP: &str =
    "Write the value of each top-level form on a line of its own [default: off]";

const NOTICES_HELP: &str =
    "Write what the dependents AUDIT and SECOND heard, after the last file [default: off]";

const STEPS_HELP: &str = "Steps that one top-level form may take, from 1 to 1000000000";

const DEPTH_HELP: &str = "How deep forms may nest in evaluation, from 1 to 4000";

const FILES_HELP: &str =
    "Files of Lisp, run in order in one session; - is standard input [default: -]";

/// What help ends with.
const AFTER_HELP: &str = "Exit status:
  0  every form gave a value, or help or the version was shown
  1  a condition was written, or memory ran out inside of a form
  2  the command line is at fault
  3  a file could not be read, the output not written, or memory ran out

Example:
  clos --echo --steps 50000 animals.lisp";

/// A flag `--NAME`.
fn flag<'a>(alloc: Global, name: &'a str, help: &'a str) -> Arg<'a>
    ensures { (rule_of result ≡ flag_rule name.entry.now) × (result.global ≡ false) }
{
    Arg::new(alloc, name)
        .long(name)
        .action(ArgAction::SetTrue)
        .help(help)
}

/// An option `--NAME N` with a number from 1 to `most`.
fn number_option<'a>(
    alloc: Global,
    name: &'a str,
    most: u64,
    default: &'a str,
    help: &'a str,
) -> Arg<'a>
    ensures { (rule_of result ≡ number_rule name.entry.now most default.entry.now)
        × (result.global ≡ false) }
{
    Arg::new(alloc, name)
        .long(name)
        .action(ArgAction::Set)
        .value_name("N")
        .value_parser(ValueParser::unsigned(1, most))
        .default_value(default)
        .help(help)
}

/// The files.
fn files_argument<'a>(alloc: Global) -> Arg<'a>
    ensures { (rule_of result ≡ files_rule) × (result.global ≡ false) }
{
    Arg::new(alloc, "files")
        .value_name("FILE")
        .action(ArgAction::Append)
        .help(FILES_HELP)
}

/// The command line as clap knows it.
fn command<'a>(alloc: Global) -> Result<Command<'a>, AllocError>
    ensures { IfOk result (λ c. app_of c ≡ clos_command) }
{
    let echo = flag(alloc, "echo", ECHO_HELP);
    let notices = flag(alloc, "notices", NOTICES_HELP);
    let steps = number_option(alloc, "steps", MAX_STEPS, "1000000", STEPS_HELP);
    let depth = number_option(alloc, "depth", MAX_DEPTH, "1000", DEPTH_HELP);
    Command::new(alloc, "clos")
        .about("Runs programs of a small Common Lisp with its object system")
        .version(VERSION)
        .after_help(AFTER_HELP)
        .arg(echo)?
        .arg(notices)?
        .arg(steps)?
        .arg(depth)?
        .arg(files_argument(alloc))
}

/// The number that an option's value writes.
fn number(text: Option<&str>) -> u64
    ensures { (t : List ℕ) (most : ℕ) → option_map (λ s. s.now) text.entry ≡ Some t
        → IsUnsignedIn 1 most t → result ≡ digits_value 10 (without_leading_plus t) }
{
    match text {
        Some(text) => text.parse::<u64>().unwrap_or(1),
        None => 1,
    }
}

/// Whether the flag was given.
fn has_flag(matches: &ArgMatches<'_>, id: &str) -> bool
    ensures { result ≡ option_map_or (λ t. bytes_eq t (codes "true"))
        (first_value (found_of matches.now) id.now) false }
{
    match matches.get_str(id) {
        Some(text) => text == "true",
        None => false,
    }
}

/// The files that were named.
fn files<'a>(alloc: Global, matches: &ArgMatches<'a>) -> Result<Vec<&'a str>, AllocError>
    ensures { IfOk result (λ v. map (λ f. f.now) v.items
        ≡ unwrap_or (option_map raw_values (matched_of (found_of matches.now) (codes "files"))) []) }
{
    match matches.get_strs("files") {
        Some(files) => Vec::from_slice(alloc, files),
        None => Ok(Vec::new(alloc)),
    }
}

/// The settings that clap found.
fn settings_found<'a>(alloc: Global, matches: &ArgMatches<'a>) -> Result<Settings<'a>, AllocError>
    requires steps { HasNumber (found_of matches.now) (codes "steps") 1000000000 }
    requires depth { HasNumber (found_of matches.now) (codes "depth") 4000 }
    ensures matched { IfOk result (AreMatched (rows_of (found_of matches.now))) }
    ensures in_range { IfOk result AreInRange }
{
    let echo = has_flag(matches, "echo");
    let notices = has_flag(matches, "notices");
    let steps = number(matches.get_str("steps"));
    let depth = number(matches.get_str("depth"));
    let files = files(alloc, matches)?;
    Ok(Settings {
        echo,
        notices,
        steps,
        depth,
        files,
    })
}

/// What the words ask for, of which the first is the program's name.
pub fn settings<'a, S: AsStr>(alloc: Global, words: &'a [S]) -> Result<Settings<'a>, Error>
    ensures matched { IfOk result
        (AreMatched (matches_of clos_command (map S.text words.entry.now))) }
    ensures in_range { IfOk result AreInRange }
    ensures taken { IfErr result (λ e. takes clos_command (map S.text words.entry.now) ≡ true
        → kind_of e ≡ ErrorKind.OutOfMemory) }
    ensures kinds { FailsBy (fault_of clos_command (map S.text words.entry.now)) result }
{
    let matches = command(alloc)?.try_get_matches_from(words)?;
    Ok(settings_found(alloc, &matches)?)
}
