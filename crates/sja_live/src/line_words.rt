//! What a line asks for.

ghost use Rattle.std.specs.Prelude.{◌≤◌, IfOk, IfErr};
ghost use Rattle.sja_live.specs.Commands.{AreCommandWords};
ghost use Rattle.sja_live.specs.Inside.Reading.{IsCommandRefusal};
ghost use Rattle.sja_plan_reading.specs.Words.{words};

use super::command_refusal::CommandRefusal;
use super::command_words::command_of;
use super::live_command::LiveCommand;
use sja_plan_reading::find_words;
use std::alloc::Global;

/// What a line asks for, by this version of the rules, of a session without an end or with one, of so many nodes.
///
/// Errors: the first mistake in it; or memory was refused.
pub(crate) fn asked(
    alloc: Global,
    version: usize,
    endless: bool,
    nodes: usize,
    line: &str,
) -> Result<LiveCommand, CommandRefusal>
    requires { nodes ≤ 8 }
    ensures ok { IfOk result (λ c. AreCommandWords version endless nodes (words line.now) c) }
    ensures err { IfErr result (IsCommandRefusal version endless nodes (words line.now)) }
{
    let mut words = Vec::new(alloc);
    find_words(&mut words, line)?;
    command_of(alloc, version, endless, nodes, words.as_slice())
}
