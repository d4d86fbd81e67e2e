// The commands, by their names and words.

ghost use Rattle.std.specs.Prelude.{◌≡◌, IfOk, IfSome, codes, map, option_map};
ghost use Rattle.std.specs.String.{string_bytes};
ghost use Rattle.command_words.specs.Command.{command_named, compact_table, create_table, params_of, plain_named, read_by, sample_of, sample_table, scratch_table, version_of};
ghost use Rattle.command_words.specs.Words.{CommandFits, IsReadAs};
ghost use Rattle.command_words.specs.declared.command.Command.TheVariants.{Compact, Create, Sample, Scratch};

use crate::command::Command;
use crate::words::WordsFault;
use crate::words::reading::{alone, compact_version, create_params, sample_values, scratch_params};
use std::alloc::Global;

// The command that makes a warehouse.
fn create(alloc: Global, words: &[String]) -> Result<Option<Command>, WordsFault>
    ensures value { IsReadAs result (option_map Create (read_by create_table params_of (map string_bytes words.now))) }
    ensures fits { IfOk result (λ command. IfSome command CommandFits) }
{
    match create_params(alloc, words)? {
        None => Ok(None),
        Some(params) => Ok(Some(Command::Create(params))),
    }
}

// The command that answers rows over a plain list.
fn scratch(alloc: Global, words: &[String]) -> Result<Option<Command>, WordsFault>
    ensures value { IsReadAs result (option_map Scratch (read_by scratch_table params_of (map string_bytes words.now))) }
    ensures fits { IfOk result (λ command. IfSome command CommandFits) }
{
    match scratch_params(alloc, words)? {
        None => Ok(None),
        Some(params) => Ok(Some(Command::Scratch(params))),
    }
}

// A sample: a start and a count.
fn sample(alloc: Global, words: &[String]) -> Result<Option<Command>, WordsFault>
    ensures { IsReadAs result (option_map (λ sample. Sample sample.0 sample.1) (read_by sample_table sample_of (map string_bytes words.now))) }
{
    match sample_values(alloc, words)? {
        None => Ok(None),
        Some((start, count)) => Ok(Some(Command::Sample { start, count })),
    }
}

// A compaction: a version.
fn compact(alloc: Global, words: &[String]) -> Result<Option<Command>, WordsFault>
    ensures { IsReadAs result (option_map Compact (read_by compact_table version_of (map string_bytes words.now))) }
{
    match compact_version(alloc, words)? {
        None => Ok(None),
        Some(version) => Ok(Some(Command::Compact { version })),
    }
}

// The command of this name, where it takes nothing.
fn plain_named(name: &str) -> Option<Command>
    ensures value { result ≡ plain_named name.now }
    ensures fits { IfSome result CommandFits }
{
    if name == "run" {
        Some(Command::Run)
    } else if name == "check" {
        Some(Command::Check)
    } else if name == "spans" {
        Some(Command::Spans)
    } else if name == "spanrun" {
        Some(Command::SpanRun)
    } else if name == "report" {
        Some(Command::Report)
    } else if name == "export" {
        Some(Command::Export)
    } else {
        None
    }
}

/// The command of this name with these words after it. None where there is no such command, or it
/// does not take these words.
pub fn command_named(
    alloc: Global,
    name: &str,
    words: &[String],
) -> Result<Option<Command>, WordsFault>
    ensures value { IsReadAs result (command_named name.now (map string_bytes words.now)) }
    ensures fits { IfOk result (λ command. IfSome command CommandFits) }
{
    if name == "create" {
        create(alloc, words)
    } else if name == "scratch" {
        scratch(alloc, words)
    } else if name == "sample" {
        sample(alloc, words)
    } else if name == "compact" {
        compact(alloc, words)
    } else {
        match plain_named(name) {
            None => Ok(None),
            Some(command) => alone(alloc, command, words),
        }
    }
}
