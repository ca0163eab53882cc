//! Laws of runs in one thread: each bit of each node is told by a replay of its journal. Each law is the contract of a
//! function that does nothing.
//!
//! `sja_replay` says which bit events a journal has, and may stop before the end of one that no bus writes. A journal
//! of a run in one thread is told to its end: what the node drove is what its record says, each start, credit, request,
//! stop and abort may come where it came, and the verdicts behind a bit are those that the bit brings. So each message
//! that was stored has its line in the trace.

ghost use Rattle.std.specs.Prelude.{◌≡◌, ◌<◌, ◌^◌, ◌++◌, ◌∷◌, ℕ, List, [], length, slice_index_or};
ghost use Rattle.sja_journal.specs.declared.entry.Entry.{Entry};
ghost use Rattle.sja_journal.specs.declared.entry.Entry.TheVariants.{Stored};
ghost use Rattle.sja_journal.specs.Places.{place_of};
ghost use Rattle.sja_plan.specs.Plan.{PlanValue};
ghost use Rattle.sja_log.specs.Log.{NodeValue, RunValue};
ghost use Rattle.sja_promises.specs.Runs.{IsSerialRun};
ghost use Rattle.sja_replay.specs.declared.bit_event.BitEvent.{BitEvent};
ghost use Rattle.sja_replay.specs.Happened.{Happened};
ghost use Rattle.sja_replay.specs.Stored.{AllStored};
ghost use Rattle.text_trace.specs.StoredLines.{IsToldStored};
ghost use Rattle.text_trace.specs.TraceText.{IsTrace};

/// A law: the journal of each node of a run in one thread has bit events. The number of bits of a log is a `u32`.
pub fn every_journal_of_a_run_has_bit_events()
    ensures { (plan : PlanValue) (log : RunValue) → IsSerialRun plan log → (k : ℕ) (d : NodeValue)
        → k < length log.nodes → log.bits < 2 ^ 32 → (hs : List BitEvent)
        × Happened [] (slice_index_or log.nodes k d).journal hs }
{}

/// A law: the journal of each node of a run in one thread has a bit event for each bit that was run. The number of bits
/// of a log is a `u32`.
pub fn every_bit_of_a_run_is_told()
    ensures { (plan : PlanValue) (log : RunValue) → IsSerialRun plan log → (k : ℕ) (d : NodeValue)
        → k < length log.nodes → log.bits < 2 ^ 32 → (hs : List BitEvent)
        → Happened [] (slice_index_or log.nodes k d).journal hs → length hs ≡ log.bits }
{}

/// A law: of each message that was stored in such a journal the bit before it has its frame, and tells that it was
/// stored.
pub fn every_stored_message_is_told()
    ensures { (plan : PlanValue) (log : RunValue) → IsSerialRun plan log → (k : ℕ) (d : NodeValue)
        → k < length log.nodes → log.bits < 2 ^ 32 → (hs : List BitEvent)
        → Happened [] (slice_index_or log.nodes k d).journal hs
        → AllStored (slice_index_or log.nodes k d).journal hs }
{}

/// A law: each message that a node of a run in one thread stored has its line in the trace: of the bit before it and of
/// this node, and in it stands that the frame whose message it is was received and stored, as can-utils write it.
pub fn every_stored_message_has_its_line()
    ensures { (plan : PlanValue) (log : RunValue) (trace : List ℕ) → IsSerialRun plan log → IsTrace plan log trace
        → log.bits < 2 ^ 32 → (k : ℕ) (d : NodeValue) → k < length log.nodes
        → (before after : List Entry) (m : List ℕ)
        → (slice_index_or log.nodes k d).journal ≡ before ++ Stored m ∷ after
        → IsToldStored trace k (place_of before).bits m }
{}
