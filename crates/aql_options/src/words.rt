//! The words of the command line.

ghost use Rattle.std.specs.Prelude.{◌≡◌, ◌↔◌, IfOk, IfErr, IsErrOf, map, List};
ghost use Rattle.clap.specs.Words.{first_value, found_of, kind_of};
ghost use Rattle.clap.specs.declared.error.kind.ErrorKind.TheVariants.{OutOfMemory};
ghost use Rattle.aql_options.specs.Words.{Words, AreSettings};
ghost use Rattle.aql_options.specs.declared.settings.Settings.{Settings};
ghost use Rattle.aql_options.specs.declared.words.WordsFault.{WordsFault};
ghost use Rattle.aql_options.specs.declared.words.WordsFault.TheVariants.{Memory};

use crate::Settings;
use crate::command::command;
use crate::values::{batch_of, generate_of, is_on, rules_or_all, schedule_of, servers_of};
use aql_value::{Names, OutOfMemory};
use clap::error::ErrorKind;
use clap::{ArgMatches, Error};
use std::alloc::{AllocError, Global};

/// Why words give no settings.
#[derive(Clone, Copy, Debug, PartialEq, Eq)]
pub enum WordsFault {
    /// No settings go with the words.
    Refused,
    /// Memory ran out.
    Memory,
}

impl From<OutOfMemory> for WordsFault {
    ghost use Rattle.std.specs.Prelude.{◌≡◌};
    ghost use Rattle.aql_options.specs.declared.words.WordsFault.TheVariants.{Memory};

    ghost from_gives = { λ _ given. given ≡ Memory };

    fn from(_: OutOfMemory) -> WordsFault {
        WordsFault::Memory
    }
}

impl From<AllocError> for WordsFault {
    ghost use Rattle.std.specs.Prelude.{◌≡◌};
    ghost use Rattle.aql_options.specs.declared.words.WordsFault.TheVariants.{Memory};

    ghost from_gives = { λ _ given. given ≡ Memory };

    fn from(_: AllocError) -> WordsFault {
        WordsFault::Memory
    }
}

impl From<Error> for WordsFault {
    ghost use Rattle.std.specs.Prelude.{◌≡◌, ◌↔◌};
    ghost use Rattle.clap.specs.Words.{kind_of};
    ghost use Rattle.clap.specs.declared.error.kind.ErrorKind.TheVariants.{OutOfMemory};
    ghost use Rattle.aql_options.specs.declared.words.WordsFault.TheVariants.{Memory};

    ghost from_gives = { λ error given. (given ≡ Memory) ↔ (kind_of error ≡ OutOfMemory) };

    fn from(error: Error) -> WordsFault {
        match error.kind() {
            ErrorKind::OutOfMemory => WordsFault::Memory,
            _ => WordsFault::Refused,
        }
    }
}

/// The settings that the words of the command line give; the first word is the program's name.
pub fn parse_words(alloc: Global, words: &Names) -> Result<Settings, WordsFault>
    ensures taken { IfOk result (λ settings. Words words.now settings) }
    ensures refused { IsErrOf result WordsFault.Refused
        → (settings : Settings) → Words words.now settings → ⊥ }
{
    let texts = texts_of(alloc, words)?;
    let matches = command(alloc)?.try_get_matches_from(texts.as_slice())?;
    settings_of(alloc, &matches)
}

fn texts_of<'a>(alloc: Global, words: &'a Names) -> Result<Vec<&'a str>, OutOfMemory>
    ensures { IfOk result (λ texts. map (λ t. t.now) texts.items ≡ words.entry.now) }
{
    let mut texts = Vec::new(alloc);
    for word in words.as_slice() {
        texts.push(word.as_str())?;
    }
    Ok(texts)
}

// The settings that the values of the options give.
fn settings_of(alloc: Global, matches: &ArgMatches<'_>) -> Result<Settings, WordsFault>
    ensures taken { IfOk result (AreSettings (first_value (found_of matches.now))) }
    ensures refused { IsErrOf result WordsFault.Refused → (settings : Settings)
        → AreSettings (first_value (found_of matches.now)) settings → ⊥ }
{
    let Some(servers) = servers_of(matches.get_str("servers")) else {
        return Err(WordsFault::Refused);
    };
    let Some(batch) = batch_of(matches.get_str("batch")) else {
        return Err(WordsFault::Refused);
    };
    let Some(schedule) = schedule_of(matches.get_str("schedule")) else {
        return Err(WordsFault::Refused);
    };
    let Some(rules) = rules_or_all(alloc, matches.get_str("rules"))? else {
        return Err(WordsFault::Refused);
    };
    let Some(generate) = generate_of(matches.get_str("generate")) else {
        return Err(WordsFault::Refused);
    };
    Ok(Settings {
        servers,
        batch,
        schedule,
        rules,
        explain: is_on(matches.get_str("explain")),
        trace: is_on(matches.get_str("trace")),
        stats: is_on(matches.get_str("stats")),
        generate,
    })
}
