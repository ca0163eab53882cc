//! The table of commands: each one's name, the line that help has for it, and its arguments in order.

ghost use Rattle.std.specs.Prelude.{◌≡◌};
ghost use Rattle.sja_command_line.specs.CommandLine.{empty_app, sja_app};
ghost use Rattle.sja_command_line.specs.Inside.Table.{with_apps};

use super::arguments::{
    ACR, AMR, BIT, BITS, CHANGED, DRAW, ERRORS, EXPECT, FILE, FILES, FILES_JOBS, FIRST, FROM, JOBS,
    LAST, LINE, LOST, MESSAGE, MESSAGES, MODE, ONLY, PAIRS, ROWS, STRICT, STRIKE, STUCK, SVG, TEXT,
    THREADS, TO, TWICE, YES,
};
use super::command_row::CommandRow;

/// `filter`.
pub(crate) const FILTER: CommandRow<'static> = CommandRow {
    name: "filter",
    about: "Print whether an acceptance filter, single or dual, passes a message's frame",
    arguments: &[MODE, ACR, AMR, MESSAGE],
};

/// `run`.
pub(crate) const RUN: CommandRow<'static> = CommandRow {
    name: "run",
    about: "Print the report of a run of the plan on standard input: sja run < plan.toml",
    arguments: &[THREADS, FILES, FILES_JOBS, EXPECT],
};

/// `sweep`.
pub(crate) const SWEEP: CommandRow<'static> = CommandRow {
    name: "sweep",
    about: "Print what each single bit error does to the run of the plan on standard input",
    arguments: &[
        ONLY, FROM, TO, PAIRS, CHANGED, TWICE, LOST, STUCK, ROWS, YES, JOBS, STRIKE, FILE,
    ],
};

/// All commands, in the order in which help lists them.
const COMMANDS: &[CommandRow<'static>] = &[
    CommandRow {
        name: "encode",
        about: "Print the levels of a message's frame",
        arguments: &[MESSAGE],
    },
    CommandRow {
        name: "decode",
        about: "Print the message of an acknowledged line",
        arguments: &[LINE],
    },
    FILTER,
    CommandRow {
        name: "arbitrate",
        about: "Print where each of one to eight messages' frames loses arbitration to the others",
        arguments: &[MESSAGES],
    },
    CommandRow {
        name: "message",
        about: "Print a message in can-utils' notation, or the message of that notation",
        arguments: &[TEXT],
    },
    RUN,
    CommandRow {
        name: "wave",
        about: "Print the waveform of a run of the plan on standard input: sja wave < plan.toml",
        arguments: &[THREADS, FILES, FILES_JOBS],
    },
    CommandRow {
        name: "trace",
        about: "Print what happened in a run of the plan on standard input, event by event",
        arguments: &[THREADS, FILE],
    },
    CommandRow {
        name: "frames",
        about: "Print the bits of each field of the frames in a run of the plan on standard input",
        arguments: &[THREADS, FILES, FILES_JOBS, BITS],
    },
    CommandRow {
        name: "picture",
        about: "Print the picture of a run of the plan on standard input, a column for each bit",
        arguments: &[FIRST, LAST, SVG, THREADS, DRAW, FILE],
    },
    CommandRow {
        name: "candump",
        about: "Print what each node received in a run of the plan on standard input, for can-utils",
        arguments: &[ERRORS, THREADS, FILES, FILES_JOBS],
    },
    CommandRow {
        name: "check",
        about: "Print the first mistake in the plan on standard input, or what its run left out",
        arguments: &[FILES, FILES_JOBS, STRICT],
    },
    SWEEP,
    CommandRow {
        name: "registers",
        about: "Print what the registers of each node read as after a bit of such a run",
        arguments: &[BIT, FILE],
    },
    CommandRow {
        name: "plan",
        about: "Print the plan on standard input in the one way in which plans are written",
        arguments: &[FILE],
    },
    CommandRow {
        name: "live",
        about: "Drive a bus by lines on standard input, each answered by a line on standard output",
        arguments: &[],
    },
];

/// All commands: with them the program is the whole.
pub(crate) fn commands() -> &'static [CommandRow<'static>]
    ensures { with_apps empty_app result.now ≡ sja_app }
{
    COMMANDS
}
