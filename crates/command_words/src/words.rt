//! The words of the command line read as a command.

mod commands;
mod reading;
mod values;

ghost use Rattle.std.specs.Prelude.{◌≡◌, IfOk, List, MatchResult, None, Some, map, ℕ};
ghost use Rattle.std.specs.String.{string_bytes};
ghost use Rattle.command_words.specs.Command.{command_of};
ghost use Rattle.command_words.specs.Words.{CommandFits, ExplainsWords};

use crate::command::Command;
use crate::words::commands::command_named;
use std::alloc::{AllocError, Global};
use thiserror::Error;

/// Why words were not read as a command.
#[derive(Clone, Copy, PartialEq, Eq, Debug, Error)]
pub enum WordsFault {
    /// The words are not in the grammar.
    #[error("the words are no command")]
    Usage,
    /// Memory ran out.
    #[error("no memory")]
    NoMemory,
}

impl From<AllocError> for WordsFault {
    ghost use Rattle.std.specs.Prelude.{◌≡◌};
    ghost use Rattle.command_words.specs.declared.words.WordsFault.TheVariants.{NoMemory};

    ghost from_gives = { λ _ fault. fault ≡ NoMemory };

    fn from(_error: AllocError) -> WordsFault {
        WordsFault::NoMemory
    }
}

/// Reads the words of the command line, without the program's name, as a command.
pub fn read_words(alloc: Global, words: &[String]) -> Result<Command, WordsFault>
    ensures read { MatchResult result (λ command. command_of (map string_bytes words.now) ≡ Some command) (λ fault. ExplainsWords fault (map string_bytes words.now)) }
    ensures fits { IfOk result CommandFits }
{
    let [name, rest @ ..] = words else {
        return Err(WordsFault::Usage);
    };
    match command_named(alloc, name.as_str(), rest)? {
        None => Err(WordsFault::Usage),
        Some(command) => Ok(command),
    }
}
