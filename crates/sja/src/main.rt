//! The program `sja`: the arguments and the standard streams, handed to [`sja`].
#![tactic(auto)]

mod disk;
mod refusal_watch;

use disk::Disk;
use refusal_watch::RefusalWatch;
use sja_run::{CommandRefusal, Output, Task, parse, sja};
use std::alloc::Global;
use std::env;
use std::io::{BufReader, ErrorKind, IsTerminal};
use std::process::ExitCode;

/// What the parser says of an argument that is no text.
const NO_TEXT: &str = "error: invalid UTF-8 was detected in one or more arguments\n";

/// Answers the exit status: 0 for done, 1 for refused, 2 for words that don't parse. Where words ask for what stands on
/// standard input, and that is a terminal, a line on standard error says what is waited for. Where standard error is a
/// terminal, and says that a plan is refused and no more, a line more says who tells where.
fn main(rt: HostRuntime) -> ExitCode {
    let mut out = Output::new(rt.stdout());
    let asks = rt.stderr().is_terminal();
    let mut err = Output::new(RefusalWatch::new(rt.stderr()));
    let status = match env::args(&rt) {
        Ok(args) => match args.collect::<Vec<String>>(rt.alloc()) {
            Ok(words) => {
                let stdin = rt.stdin();
                if stdin.is_terminal() {
                    say_what_is_waited_for(&rt, words.as_slice());
                }
                let disk = Disk { rt: &rt };
                match BufReader::new(rt.alloc(), stdin) {
                    Ok(mut input) => sja(
                        &rt,
                        rt.alloc(),
                        &disk,
                        &words,
                        &mut input,
                        &mut out,
                        &mut err,
                    ),
                    Err(_) => err.refuse(CommandRefusal::OutOfMemory),
                }
            }
            Err(_) => err.refuse(CommandRefusal::OutOfMemory),
        },
        Err(error) if error.kind() == ErrorKind::OutOfMemory => err.refuse(
            CommandRefusal::OutOfMemory,
        ),
        Err(_) => err.turn_away(NO_TEXT.as_bytes()),
    };
    if asks && err.writer.is_unexplained() {
        let _ = eprintln!(rt; "sja check says where");
    }
    ExitCode::from(status)
}

/// Says what somebody has to type for these words, the program's name first: a plan, or the lines of a session.
fn say_what_is_waited_for(rt: &HostRuntime, words: &[String]) {
    let (Ok(task), Some(command)) = (parse(rt.alloc(), words), words.get(1)) else {
        return;
    };
    let command = command.as_str();
    if let Task::Live = task {
        let _ = eprintln!(rt;
            "sja: lines are waited for on standard input, each is answered; the first: live 3 1000 2"
        );
    } else if is_of_plan(&task) {
        let _ = eprintln!(rt;
            "sja: the plan is waited for on standard input; from a file: sja {command} < plan.toml"
        );
    }
}

/// Whether the task reads a plan from the input.
fn is_of_plan(task: &Task<'_>) -> bool {
    match task {
        Task::Run { .. }
        | Task::Wave { .. }
        | Task::Trace { .. }
        | Task::Frames { .. }
        | Task::Picture { .. }
        | Task::Candump { .. }
        | Task::Check { .. }
        | Task::Sweep(_)
        | Task::StruckPlan { .. }
        | Task::Registers { .. }
        | Task::Plan => true,
        Task::Expected(words) => words.plan == "-",
        Task::Files(files) => files.names.iter().any(|name| *name == "-"),
        _ => false,
    }
}
