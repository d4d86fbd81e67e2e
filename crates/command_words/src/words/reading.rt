// What clap reads of the words after the command.

ghost use Rattle.std.specs.Prelude.{◌≡◌, IfOk, IfSome, MatchResult, Some, false, map, option_map, true};
ghost use Rattle.std.specs.String.{string_bytes};
ghost use Rattle.bw_types.specs.Fits.{IsInRange};
ghost use Rattle.clap.specs.Faults.{is_simple_and_free};
ghost use Rattle.clap.specs.Words.{app_of, first_of, found_of, rows_of, rule_of};
ghost use Rattle.command_words.specs.Command.{bare_table, compact_table, create_table, params_of, params_words, read_by, sample_of, sample_table, scratch_table, version_of};
ghost use Rattle.command_words.specs.Reading.{bare_app, common_app, compact_app, create_app, found_in, option_rule, positional_rule, sample_app, scratch_app, words_of_text};
ghost use Rattle.command_words.specs.Words.{IsReadAs};

use crate::words::WordsFault;
use crate::words::values::{ParamsText, params, sample_numbers, version};
use bw_types::Params;
use clap::error::ErrorKind;
use clap::{Arg, ArgAction, ArgMatches, Command};
use std::alloc::{AllocError, Global};

// An option with a value.
fn option<'a>(alloc: Global, name: &'a str) -> Arg<'a>
    ensures rule { rule_of result ≡ option_rule name.now }
    ensures local { result.global ≡ false }
{
    Arg::new(alloc, name).long(name).action(ArgAction::Set)
}

// A positional word, which has to be there.
fn positional<'a>(alloc: Global, name: &'a str) -> Arg<'a>
    ensures rule { rule_of result ≡ positional_rule name.now }
    ensures local { result.global ≡ false }
{
    Arg::new(alloc, name).action(ArgAction::Set).required(true)
}

// A command that takes nothing, and no flag of clap's own.
fn bare_command<'a>(alloc: Global) -> Command<'a>
    ensures { app_of result ≡ bare_app }
{
    Command::new(alloc, "boxsum")
        .disable_help_flag(true)
        .no_binary_name(true)
}

// A command with the options that `create` and `scratch` both have.
fn common_command<'a>(alloc: Global) -> Result<Command<'a>, AllocError>
    ensures { IfOk result (λ command. app_of command ≡ common_app) }
{
    bare_command(alloc)
        .arg(option(alloc, "degree"))?
        .arg(option(alloc, "events"))
}

// The arguments of `create`.
fn create_command<'a>(alloc: Global) -> Result<Command<'a>, AllocError>
    ensures { IfOk result (λ command. app_of command ≡ create_app) }
{
    common_command(alloc)?
        .arg(option(alloc, "pages"))?
        .arg(option(alloc, "signed"))?
        .arg(positional(alloc, "dims"))
}

// The arguments of `scratch`.
fn scratch_command<'a>(alloc: Global) -> Result<Command<'a>, AllocError>
    ensures { IfOk result (λ command. app_of command ≡ scratch_app) }
{
    common_command(alloc)?
        .arg(option(alloc, "signed"))?
        .arg(positional(alloc, "dims"))
}

// The arguments of `sample`.
fn sample_command<'a>(alloc: Global) -> Result<Command<'a>, AllocError>
    ensures { IfOk result (λ command. app_of command ≡ sample_app) }
{
    bare_command(alloc)
        .arg(positional(alloc, "start"))?
        .arg(positional(alloc, "count"))
}

// The argument of `compact`.
fn compact_command<'a>(alloc: Global) -> Result<Command<'a>, AllocError>
    ensures { IfOk result (λ command. app_of command ≡ compact_app) }
{
    bare_command(alloc).arg(positional(alloc, "version"))
}

// What clap finds in words. None where it refuses them, other than for want of memory.
fn found<'a>(
    command: Command<'a>,
    words: &'a [String],
) -> Result<Option<ArgMatches<'a>>, WordsFault>
    requires { is_simple_and_free (app_of command) ≡ true }
    ensures { MatchResult result
        (λ found. option_map (λ m. rows_of (found_of m)) found ≡ found_in (app_of command.entry) (map string_bytes words.now))
        (λ fault. fault ≡ WordsFault.NoMemory) }
{
    match command.try_get_matches_from(words) {
        Ok(matches) => Ok(Some(matches)),
        Err(error) => match error.kind() {
            ErrorKind::OutOfMemory => Err(WordsFault::NoMemory),
            _ => Ok(None),
        },
    }
}

// The values of a command that makes params, as clap found them.
fn params_text<'a>(matches: &ArgMatches<'a>) -> ParamsText<'a>
    ensures { words_of_text result ≡ params_words (λ name. first_of name (rows_of (found_of matches.now))) }
{
    ParamsText {
        dims: matches.get_str("dims"),
        degree: matches.get_str("degree"),
        events: matches.get_str("events"),
        pages: matches.get_str("pages"),
        signed: matches.get_str("signed"),
    }
}

/// The params that words give to `create`. None where they are not in its grammar.
pub fn create_params(alloc: Global, words: &[String]) -> Result<Option<Params>, WordsFault>
    ensures value { IsReadAs result (read_by create_table params_of (map string_bytes words.now)) }
    ensures fits { IfOk result (λ read. IfSome read IsInRange) }
{
    match found(create_command(alloc)?, words)? {
        None => Ok(None),
        Some(matches) => Ok(params(&params_text(&matches))),
    }
}

/// The params that words give to `scratch`. None where they are not in its grammar.
pub fn scratch_params(alloc: Global, words: &[String]) -> Result<Option<Params>, WordsFault>
    ensures value { IsReadAs result (read_by scratch_table params_of (map string_bytes words.now)) }
    ensures fits { IfOk result (λ read. IfSome read IsInRange) }
{
    match found(scratch_command(alloc)?, words)? {
        None => Ok(None),
        Some(matches) => Ok(params(&params_text(&matches))),
    }
}

/// The start and the count that words give to `sample`. None where they are not in its grammar.
pub fn sample_values(alloc: Global, words: &[String]) -> Result<Option<(u64, u32)>, WordsFault>
    ensures { IsReadAs result (read_by sample_table sample_of (map string_bytes words.now)) }
{
    match found(sample_command(alloc)?, words)? {
        None => Ok(None),
        Some(matches) => Ok(sample_numbers(matches.get_str("start"), matches.get_str("count"))),
    }
}

/// The version that words give to `compact`. None where they are not in its grammar.
pub fn compact_version(alloc: Global, words: &[String]) -> Result<Option<u32>, WordsFault>
    ensures { IsReadAs result (read_by compact_table version_of (map string_bytes words.now)) }
{
    match found(compact_command(alloc)?, words)? {
        None => Ok(None),
        Some(matches) => Ok(version(matches.get_str("version"))),
    }
}

/// The command, where words give nothing.
pub fn alone(
    alloc: Global,
    asked: crate::command::Command,
    words: &[String],
) -> Result<Option<crate::command::Command>, WordsFault>
    ensures { IsReadAs result (read_by bare_table (λ _. Some asked) (map string_bytes words.now)) }
{
    match found(bare_command(alloc), words)? {
        None => Ok(None),
        Some(_matches) => Ok(Some(asked)),
    }
}
