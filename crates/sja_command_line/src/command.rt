//! The command line of `sja` as the parser holds it, by the table of commands.

ghost use Rattle.std.specs.Prelude.{◌≡◌, IfOk};
ghost use Rattle.clap.specs.Words.{app_of};
ghost use Rattle.sja_command_line.specs.CommandLine.{bare_app, empty_app, sja_app};
ghost use Rattle.sja_command_line.specs.Inside.Parser.{IsHeld, IsHeldAs};
ghost use Rattle.sja_command_line.specs.Inside.Table.{app_in, with_apps};

use super::argument::argument_of;
use super::command_row::CommandRow;
use super::commands::commands;
use super::details::details_of;
use clap::Command;
use std::alloc::{AllocError, Global};

/// The version that `sja --version` prints (this project's own rule).
const VERSION: &str = "0.3.0";

/// The whole: a subcommand has to be given.
pub(crate) fn sja_command<'a>(alloc: Global) -> Result<Command<'a>, AllocError>
    ensures { IfOk result (λ command. app_of command ≡ sja_app) }
{
    program_of(alloc, commands())
}

/// The program with the commands of these rows.
#[tactic(auto, unfolding(crate::specs::Inside::Parser::IsHeld))]
fn program_of<'a>(alloc: Global, rows: &[CommandRow<'a>]) -> Result<Command<'a>, AllocError>
    ensures { IfOk result (λ command. app_of command ≡ with_apps empty_app rows.now) }
{
    let mut command = empty_command(alloc);
    for row in rows {
        command = command.subcommand(command_of(alloc, row)?)?;
    }
    Ok(command)
}

/// The program, which has a version and of which one command has to be given, before it has any.
#[tactic(auto, unfolding(crate::specs::CommandLine::empty_app, crate::specs::Inside::Parser::IsHeld))]
fn empty_command<'a>(alloc: Global) -> Command<'a>
    ensures { IsHeld result empty_app }
{
    Command::new(alloc, "sja")
        .about("A model of SJA1000 CAN controllers on one bus")
        .version(VERSION)
        .subcommand_required(true)
}

/// The command of a row of the table.
#[tactic(auto, unfolding(crate::specs::Inside::Parser::IsHeldAs, crate::specs::Inside::Parser::IsHeld))]
pub(crate) fn command_of<'a>(alloc: Global, row: &CommandRow<'a>) -> Result<Command<'a>, AllocError>
    ensures { IsHeldAs result (app_in row.now) }
{
    let mut command = bare_command(alloc, row);
    for argument in row.arguments {
        command = command.arg(argument_of(alloc, argument))?;
    }
    Ok(command)
}

/// The same without its arguments, with what help says of it.
#[tactic(auto, unfolding(crate::specs::Inside::Parser::IsHeld, crate::specs::CommandLine::bare_app))]
fn bare_command<'a>(alloc: Global, row: &CommandRow<'a>) -> Command<'a>
    ensures { IsHeld result (bare_app row.now.name.now) }
{
    let command = Command::new(alloc, row.name).about(row.about);
    match details_of(row.name) {
        Some(text) => command.after_help(text),
        None => command,
    }
}
