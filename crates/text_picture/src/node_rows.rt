//! [`NodeRows`]: the rows of a node.

use super::copies::{put_levels, put_rest_letters};
use super::letters::{letter, short_letter};
use super::lines::{put_level, put_node_row, put_row};
use can_levels::Level;
use sja_replay::{BitEvent, ShortBit};
use std::alloc::{AllocError, Global};
use text_frames::Run;
use text_trace::{NodeTrace, driven_of, is_start};

/// The rows of a node in the block that is drawn, and the run of equal levels before its next bit.
#[derive(Debug, Drop)]
pub(crate) struct NodeRows {
    /// The run of equal levels since SOF; none before the first one.
    pub(crate) run: Option<Run>,
    /// The levels that the node drives.
    pub(crate) levels: String,
    /// Its letters.
    pub(crate) letters: String,
}

impl NodeRows {
    ghost use Rattle.std.specs.Prelude.{◌≡◌, ◌++◌, None, [], OnOk, string_bytes};
    ghost use Rattle.text_picture.specs.Drawing.{hand_run, IsFresh, Passes, Draws, Clears, shown_rows};
    ghost use Rattle.text_picture.specs.Inside.PictureRest.{Rests, PassesRest};

    /// Before the first bit.
    pub(crate) fn new(alloc: Global) -> NodeRows
        ensures { IsFresh result }
    {
        NodeRows {
            run: None,
            levels: String::new(alloc),
            letters: String::new(alloc),
        }
    }

    /// Goes past the bit that the node trace has at hand.
    pub(crate) fn pass(&mut self, node_trace: &NodeTrace<'_>)
        ensures { Passes node_trace.now self.old self.new }
    {
        self.run = hand_run(self.run, &node_trace.short, node_trace.bits.bit());
    }

    /// Draws that bit, in which the bus had this level, and goes past it.
    pub(crate) fn draw(&mut self, bus: Level, node_trace: &NodeTrace<'_>) -> Result<(), AllocError>
        ensures { OnOk result (Draws bus node_trace.now self.old self.new) }
    {
        let short = &node_trace.short;
        let bit = node_trace.bits.bit();
        put_level(&mut self.levels, driven_of(short, bit))?;
        self.letters
            .push_str(hand_letter(bus, self.run, short, bit))?;
        self.run = hand_run(self.run, short, bit);
        Ok(())
    }

    /// Goes past five bits or more in which the node rested.
    pub(crate) fn pass_rest(&mut self)
        ensures { PassesRest self.old self.new }
    {
        self.run = rest_run(self.run);
    }

    /// Draws so many bits, five or more, in which the node rested as the node trace has it at hand.
    pub(crate) fn draw_rest(
        &mut self,
        count: u32,
        node_trace: &NodeTrace<'_>,
    ) -> Result<(), AllocError>
        ensures { OnOk result (Rests count node_trace.now self.old self.new) }
    {
        put_levels(&mut self.levels, count)?;
        put_rest_letters(&mut self.letters, &node_trace.short, count)?;
        self.run = rest_run(self.run);
        Ok(())
    }

    /// Both rows behind a text.
    #[tactic(auto, using(text_report::proofs::WrittenLines::Written::two_texts))]
    pub(crate) fn put(&self, text: &mut String, node: usize) -> Result<(), AllocError>
        ensures { OnOk result (string_bytes text.new ≡ string_bytes text.old ++ shown_rows node self.now) }
    {
        put_node_row(text, node, self.levels.as_str())?;
        put_row(text, "        ", self.letters.as_str())?;
        Ok(())
    }

    /// Begins the next block.
    pub(crate) fn clear(&mut self)
        ensures { Clears self.old self.new }
    {
        self.levels.clear();
        self.letters.clear();
    }
}

ghost use Rattle.std.specs.Prelude.{◌≡◌};
ghost use Rattle.text_picture.specs.Drawing.{run_with, run_past, hand_run, is_full, letter_after, hand_letter};
ghost use Rattle.text_picture.specs.Inside.PictureRest.{rest_run};

/// The run of equal levels past a bit, if there is one.
pub fn run_past(run: Option<Run>, bit: &Option<BitEvent>) -> Option<Run>
    ensures { result ≡ run_past run bit.now }
{
    match bit {
        Some(bit) => run_with(run, bit),
        None => run,
    }
}

/// The same past this bit.
fn run_with(run: Option<Run>, bit: &BitEvent) -> Option<Run>
    ensures { result ≡ run_with run bit.now }
{
    if is_start(bit) {
        return Some(Run::of(bit.seen));
    }
    match run {
        Some(run) => Some(run.with(bit.seen)),
        None => None,
    }
}

/// The same past a bit at hand, in short or else in full.
fn hand_run(run: Option<Run>, short: &Option<ShortBit>, bit: &Option<BitEvent>) -> Option<Run>
    ensures { result ≡ hand_run run short.now bit.now }
{
    match short {
        Some(short) => match run {
            Some(run) => Some(run.with(short.seen)),
            None => None,
        },
        None => run_past(run, bit),
    }
}

/// The same past five recessive bits or more.
fn rest_run(run: Option<Run>) -> Option<Run>
    ensures { result ≡ rest_run run }
{
    match run {
        Some(_) => Some(Run {
            last: Level::Recessive,
            count: 5,
        }),
        None => None,
    }
}

/// Whether five equal levels came last.
pub fn is_full(run: Option<Run>) -> bool
    ensures { result ≡ is_full run }
{
    match run {
        Some(run) => run.is_full(),
        None => false,
    }
}

/// The letter of a bit at hand after this run, in short or else in full.
fn hand_letter(
    bus: Level,
    run: Option<Run>,
    short: &Option<ShortBit>,
    bit: &Option<BitEvent>,
) -> &'static str
    ensures { result.now ≡ hand_letter bus run short.now bit.now }
{
    match short {
        Some(short) => short_letter(bus, is_full(run), short),
        None => letter_if(bus, run, bit),
    }
}

/// The letter of a bit after this run, if there is one.
fn letter_if(bus: Level, run: Option<Run>, bit: &Option<BitEvent>) -> &'static str
    ensures { result.now ≡ letter_after bus run bit.now }
{
    match bit {
        Some(bit) => letter(bus, is_full(run), bit),
        None => ".",
    }
}
