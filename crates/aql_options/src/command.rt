//! The command as clap reads it.

ghost use Rattle.std.specs.Prelude.{◌≡◌, false, IfOk};
ghost use Rattle.clap.specs.Words.{app_of, rule_of, with_rule};
ghost use Rattle.aql_options.specs.Words.{command, program, valued, flag};

use clap::{Arg, ArgAction, Command};
use std::alloc::{AllocError, Global};

fn valued<'a>(alloc: Global, name: &'a str) -> Arg<'a>
    ensures rule { rule_of result ≡ valued name.entry.now }
    ensures local { result.global ≡ false }
{
    Arg::new(alloc, name).long(name).action(ArgAction::Set)
}

fn flag<'a>(alloc: Global, name: &'a str) -> Arg<'a>
    ensures rule { rule_of result ≡ flag name.entry.now }
    ensures local { result.global ≡ false }
{
    Arg::new(alloc, name).long(name).action(ArgAction::SetTrue)
}

// The command with one more option.
fn with<'a>(command: Command<'a>, option: Arg<'a>) -> Result<Command<'a>, AllocError>
    requires { option.global ≡ false }
    ensures { IfOk result
        (λ c. app_of c ≡ with_rule (app_of command.entry) (rule_of option.entry)) }
{
    command.arg(option)
}

// One simple command, without flags and subcommands of clap's own and without positional arguments.
pub(crate) fn command<'a>(alloc: Global) -> Result<Command<'a>, AllocError>
    ensures { IfOk result (λ c. app_of c ≡ command) }
{
    let command = program(alloc);
    let command = with(command, valued(alloc, "servers"))?;
    let command = with(command, valued(alloc, "batch"))?;
    let command = with(command, valued(alloc, "schedule"))?;
    let command = with(command, valued(alloc, "rules"))?;
    let command = with(command, flag(alloc, "explain"))?;
    let command = with(command, flag(alloc, "trace"))?;
    let command = with(command, flag(alloc, "stats"))?;
    with(command, valued(alloc, "generate"))
}

fn program<'a>(alloc: Global) -> Command<'a>
    ensures { app_of result ≡ program }
{
    Command::new(alloc, "aql_shell")
        .disable_help_flag(true)
        .disable_help_subcommand(true)
        .disable_version_flag(true)
}
