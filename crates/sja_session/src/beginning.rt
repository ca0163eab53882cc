//! Whether a session may begin, and how its run does.

ghost use Rattle.std.specs.Prelude.{◌≡◌, ◌≢◌, ◌<◌, [], length, map, replicate, OnOk, IfOk, IfErr};
ghost use Rattle.sja_bus_rules.specs.Buses.{new_bus};
ghost use Rattle.sja_journal.specs.Sizes.{most_activations};
ghost use Rattle.sja_driver.specs.StepRuns.{most_acts};
ghost use Rattle.sja_plan.specs.Limits.{most_bits};
ghost use Rattle.sja_serial.specs.Serial.{CanBeMade, StandsBy, setup_with};
ghost use Rattle.sja_session.specs.Beginning.{MayBegin, IsRoom, IsSessionFault};
ghost use Rattle.sja_session.specs.Inside.Written.{beside_for};
ghost use Rattle.sja_session.specs.Sessions.{run_version};
ghost use Rattle.sja_session.specs.declared.session_fault.SessionFault.TheVariants.{Memory};

use super::session_fault::SessionFault;
use super::session_room::SessionRoom;
use can_frame::OutOfMemory;
use sja_plan::{Plan, most_bits, most_steps, most_turns};
use sja_serial::SerialRun;
use sja_steps::{FaultScript, MOST_NODES};
use std::alloc::Global;

/// The last version of a session's rules; the first one is 1 (this project's own rule).
pub const LAST_VERSION: u8 = 3;

/// Whether these are within the limits of a session.
///
/// Errors: as [`Session::with_room`](super::session::Session::with_room) tells them.
pub(crate) fn check(
    version: u8,
    bits: u32,
    nodes: u8,
    room: SessionRoom,
) -> Result<(), SessionFault>
    ensures ok { OnOk result (MayBegin version bits nodes × IsRoom version room) }
    ensures err { IfErr result (IsSessionFault version bits nodes room) }
    ensures other { IfErr result (λ fault. fault ≢ Memory) }
{
    if version < 1 || version > LAST_VERSION {
        return Err(SessionFault::Version);
    }
    if bits < 1 || bits > most_bits(version) {
        return Err(SessionFault::Bits);
    }
    if nodes < 1 || nodes > MOST_NODES {
        return Err(SessionFault::NodeCount);
    }
    if room.steps > most_steps(version) as u64 {
        return Err(SessionFault::StepRoom);
    }
    if room.turns > most_turns(version) as u64 {
        return Err(SessionFault::TurnRoom);
    }
    Ok(())
}

/// The run of a session that goes by this plan for so many bits, with room for so many steps of each node, and with
/// these strikes: one without an end where these are more bits than a plan of its version, which is 3, may have.
///
/// Error: [`OutOfMemory`] where memory was refused.
pub(crate) fn run_for(
    alloc: Global,
    plan: &Plan,
    bits: u64,
    rooms: Vec<u64>,
    script: FaultScript,
) -> Result<SerialRun, OutOfMemory>
    requires may { CanBeMade 1 bits rooms.items }
    requires rules { most_bits plan.now.version < bits → plan.now.version ≡ 3 }
    ensures stands { IfOk result (λ r.
        StandsBy (setup_with (run_version (record plan.now { bits = bits })) bits script rooms.items) r
        (replicate (length rooms.items) [])) }
    ensures bus { IfOk result (λ r. r.bus ≡ new_bus script bits (length rooms.items)
        (most_activations (run_version (record plan.now { bits = bits })))
        (map (most_acts (run_version (record plan.now { bits = bits }))) rooms.items)) }
{
    plan.limits();
    if bits > u64::from(most_bits(plan.version())) {
        return SerialRun::without_end(alloc, bits, rooms, script);
    }
    SerialRun::new(alloc, plan.version(), bits, rooms, script)
}

/// For how many strikes a session has room that its plan doesn't hold: none where it goes by this plan's bits.
pub(crate) fn strikes_for(plan: &Plan, bits: u64) -> usize
    ensures { result ≡ beside_for plan.now bits }
{
    if bits > (plan.bits() as u64) {
        1 << 56
    } else {
        0
    }
}
