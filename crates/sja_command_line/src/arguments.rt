//! The rows of the arguments that the commands have.

use super::argument_row::ArgumentRow;
use super::sweep_words::{GREATEST_NUMBER, LAST_NODE, MOST_JOBS};
use super::takes::Takes;

/// `MESSAGE`.
pub(crate) const MESSAGE: ArgumentRow<'static> = ArgumentRow {
    name: "MESSAGE",
    takes: Takes::Text,
    help: "A message as the controller's buffers hold it, in hexadecimal",
};

/// `MESSAGE..`: one to eight messages.
pub(crate) const MESSAGES: ArgumentRow<'static> = ArgumentRow {
    name: "MESSAGE",
    takes: Takes::Texts,
    help: "A message as the controller's buffers hold it, in hexadecimal",
};

/// `LINE`.
pub(crate) const LINE: ArgumentRow<'static> = ArgumentRow {
    name: "LINE",
    takes: Takes::Text,
    help: "The levels of a line, a digit each: 0 dominant, 1 recessive",
};

/// `MODE`. That it is `single` or `dual` is judged after the parser.
pub(crate) const MODE: ArgumentRow<'static> = ArgumentRow {
    name: "MODE",
    takes: Takes::Text,
    help: "single or dual",
};

/// `ACR`.
pub(crate) const ACR: ArgumentRow<'static> = ArgumentRow {
    name: "ACR",
    takes: Takes::Text,
    help: "The four acceptance code registers, a byte each in hexadecimal",
};

/// `AMR`.
pub(crate) const AMR: ArgumentRow<'static> = ArgumentRow {
    name: "AMR",
    takes: Takes::Text,
    help: "The four acceptance mask registers alike; a bit 1 isn't compared",
};

/// `TEXT`.
pub(crate) const TEXT: ArgumentRow<'static> = ArgumentRow {
    name: "TEXT",
    takes: Takes::Text,
    help: "The message, in hexadecimal or in can-utils' notation",
};

/// `FILE`.
pub(crate) const FILE: ArgumentRow<'static> = ArgumentRow {
    name: "FILE",
    takes: Takes::File,
    help: "A file with a plan, taken in place of standard input",
};

/// `FILE..`.
pub(crate) const FILES: ArgumentRow<'static> = ArgumentRow {
    name: "FILE",
    takes: Takes::Files,
    help: "Files with plans, taken in place of standard input, which is - among them",
};

/// `--jobs N` beside `FILE..`.
pub(crate) const FILES_JOBS: ArgumentRow<'static> = ArgumentRow {
    name: "jobs",
    takes: Takes::Numbers(&["N"], 1, MOST_JOBS),
    help: "Take N files at one time",
};

/// `--strict`.
pub(crate) const STRICT: ArgumentRow<'static> = ArgumentRow {
    name: "strict",
    takes: Takes::Nothing,
    help: "Exit with status 1 where anything was told",
};

/// `--expect FILE`.
pub(crate) const EXPECT: ArgumentRow<'static> = ArgumentRow {
    name: "expect",
    takes: Takes::Named(&["FILE"]),
    help: "Print where the report isn't the one in FILE, with status 1",
};

/// `--threads`.
pub(crate) const THREADS: ArgumentRow<'static> = ArgumentRow {
    name: "threads",
    takes: Takes::Nothing,
    help: "Run each node's driver in a thread of its own",
};

/// `FROM`.
pub(crate) const FIRST: ArgumentRow<'static> = ArgumentRow {
    name: "FROM",
    takes: Takes::Bit,
    help: "The first bit that is drawn, counted from 0",
};

/// `TO`.
pub(crate) const LAST: ArgumentRow<'static> = ArgumentRow {
    name: "TO",
    takes: Takes::Bit,
    help: "The last bit that is drawn",
};

/// `B`.
pub(crate) const BIT: ArgumentRow<'static> = ArgumentRow {
    name: "B",
    takes: Takes::Bit,
    help: "The last bit that is run, counted from 0; else all are",
};

/// `--svg`.
pub(crate) const SVG: ArgumentRow<'static> = ArgumentRow {
    name: "svg",
    takes: Takes::Nothing,
    help: "Print a drawing in SVG instead of characters",
};

/// `--bits`.
pub(crate) const BITS: ArgumentRow<'static> = ArgumentRow {
    name: "bits",
    takes: Takes::Nothing,
    help: "Print the bits of each byte of data",
};

/// `--errors`.
pub(crate) const ERRORS: ArgumentRow<'static> = ArgumentRow {
    name: "errors",
    takes: Takes::Nothing,
    help: "Print SocketCAN's error frames too",
};

/// `--only K`.
pub(crate) const ONLY: ArgumentRow<'static> = ArgumentRow {
    name: "only",
    takes: Takes::Numbers(&["K"], 0, LAST_NODE),
    help: "Strike this node alone, counted from 0",
};

/// `--from B`.
pub(crate) const FROM: ArgumentRow<'static> = ArgumentRow {
    name: "from",
    takes: Takes::Numbers(&["B"], 0, GREATEST_NUMBER),
    help: "Strike no bit before this one, counted from 0",
};

/// `--to B`.
pub(crate) const TO: ArgumentRow<'static> = ArgumentRow {
    name: "to",
    takes: Takes::Numbers(&["B"], 0, GREATEST_NUMBER),
    help: "Strike no bit behind this one, counted from 0",
};

/// `--pairs D`.
pub(crate) const PAIRS: ArgumentRow<'static> = ArgumentRow {
    name: "pairs",
    takes: Takes::Numbers(&["D"], 0, GREATEST_NUMBER),
    help: "Strike two bits in each run, at most D bits apart",
};

/// `--changed`.
pub(crate) const CHANGED: ArgumentRow<'static> = ArgumentRow {
    name: "changed",
    takes: Takes::Nothing,
    help: "Print only lines with another outcome",
};

/// `--twice`.
pub(crate) const TWICE: ArgumentRow<'static> = ArgumentRow {
    name: "twice",
    takes: Takes::Nothing,
    help: "Print only lines where a message came twice",
};

/// `--lost`.
pub(crate) const LOST: ArgumentRow<'static> = ArgumentRow {
    name: "lost",
    takes: Takes::Nothing,
    help: "Print only lines where a message was lost",
};

/// `--stuck`.
pub(crate) const STUCK: ArgumentRow<'static> = ArgumentRow {
    name: "stuck",
    takes: Takes::Nothing,
    help: "Print only lines where a driver did fewer steps",
};

/// `--rows`.
pub(crate) const ROWS: ArgumentRow<'static> = ArgumentRow {
    name: "rows",
    takes: Takes::Nothing,
    help: "Print a row for each run instead, for scripts",
};

/// `--yes`.
pub(crate) const YES: ArgumentRow<'static> = ArgumentRow {
    name: "yes",
    takes: Takes::Nothing,
    help: "Make more than 20000 runs, or of more than 2000000000 bits",
};

/// `--yes` of `picture`.
pub(crate) const DRAW: ArgumentRow<'static> = ArgumentRow {
    name: "yes",
    takes: Takes::Nothing,
    help: "Draw more than 150000 levels in SVG",
};

/// `--jobs N`.
pub(crate) const JOBS: ArgumentRow<'static> = ArgumentRow {
    name: "jobs",
    takes: Takes::Numbers(&["N"], 1, MOST_JOBS),
    help: "Make the runs in N threads",
};

/// `--plan K B`.
pub(crate) const STRIKE: ArgumentRow<'static> = ArgumentRow {
    name: "plan",
    takes: Takes::Numbers(&["K", "B"], 0, GREATEST_NUMBER),
    help: "Print the plan with a strike more instead, of node K in bit B",
};
