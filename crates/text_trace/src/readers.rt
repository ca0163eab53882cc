//! The node traces of all nodes, where one reader serves those that have read just the same of a frame.

ghost use Rattle.std.specs.Prelude.{◌≡◌, ◌<◌, ◌+◌, ◌^◌, ℕ, true, length, slice_index_or};
ghost use Rattle.lemmas.specs.Related.{EachRelated};
ghost use Rattle.can_levels.specs.BusLevel.{wired};
ghost use Rattle.sja_replay.specs.Reading.{Receives};
ghost use Rattle.text_trace.specs.declared.node_trace.NodeTrace.{NodeTrace as Telling};
ghost use Rattle.text_trace.specs.TraceProgress.{AreUnderway};
ghost use Rattle.text_trace.specs.Inside.Reading.{Marks, OtherPasses, MayHear, HearsOne, PassesFrom, others_driven};

use super::node_trace::NodeTrace;
use can_bits::Shift;
use can_levels::Level;

/// A reader that a node has which receives a frame, or a new one.
pub(crate) fn reader_of(node_traces: &[NodeTrace<'_>]) -> Shift {
    for node_trace in node_traces {
        let reader = node_trace.bits.replay.reader();
        if node_trace.bits.replay.has_read_as(&reader) {
            return reader;
        }
    }
    Shift::new()
}

/// Marks each node for which this reader is to take the levels of a frame.
pub(crate) fn mark_all(node_traces: &mut [NodeTrace<'_>], reader: &Shift)
    requires { AreUnderway node_traces.old }
    ensures { EachRelated (Marks reader.now) node_traces.old node_traces.new }
{
    for k in 0..node_traces.len() {
        node_traces[k].mark(reader);
    }
}

/// Each that isn't behind a reader goes on past its next bit. Answers the level of the bus in it, where those behind a
/// reader drive recessive.
pub(crate) fn pass_others(node_traces: &mut [NodeTrace<'_>]) -> Level
    ensures passes { EachRelated OtherPasses node_traces.old node_traces.new }
    ensures bus { result ≡ wired (others_driven node_traces.new) }
{
    let mut bus = Level::Recessive;
    for k in 0..node_traces.len() {
        bus = node_traces[k].pass_other(bus);
    }
    bus
}

/// Whether all that are behind a reader may stay so, where it takes this level of this bit.
pub(crate) fn hear_next(node_traces: &[NodeTrace<'_>], bus: Level, bit: u32) -> bool
    ensures { result ≡ true → (k : ℕ) (t : Telling) → k < length node_traces.now
        → MayHear bus bit (slice_index_or node_traces.now k t) }
{
    for node_trace in node_traces {
        if !node_trace.hears(bus, bit) {
            return false;
        }
    }
    true
}

/// Each that is behind this reader goes on to where it is, and past its next bit.
pub(crate) fn pass_from_all(node_traces: &mut [NodeTrace<'_>], reader: &Shift)
    requires { (k : ℕ) (t : Telling) → k < length node_traces.old → (slice_index_or node_traces.old k t).reads ≡ true
        → Receives (slice_index_or node_traces.old k t).bits.replay }
    ensures { EachRelated (PassesFrom reader.now) node_traces.old node_traces.new }
{
    for k in 0..node_traces.len() {
        node_traces[k].pass_from(reader);
    }
}
