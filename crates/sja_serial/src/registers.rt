//! [`run_registers`]: what the registers of each node read as at the end of a run in one thread.

ghost use Rattle.std.specs.Prelude.{◌≡◌, ◌<◌, ◌≤◌, ◌++◌, List, length, IfOk, OnOk};
ghost use Rattle.std.specs.List.{flat_map};
ghost use Rattle.sja_driver.specs.StepRuns.{StepRun};
ghost use Rattle.sja_serial.specs.Inside.Registering.{AddsNode};
ghost use Rattle.sja_serial.specs.Registers.{AreRegisters, node_rows, row_of, rows_below, shown_value};
ghost use Rattle.sja_serial.specs.Registers.{window_addresses};
ghost use Rattle.sja_serial.specs.Serial.{Setup, StandsBy, IsRunBy, all_acts};

use super::drivers::FIRST_BY_BYTES;
use super::run::{new_run, take_turns};
use super::serial_run::SerialRun;
use can_frame::OutOfMemory;
use sja_driver::{UnmodelledRegisters, is_reset};
use sja_log::RegisterRow;
use sja_plan::Plan;
use sja_regs::{BufferView, Port};
use std::alloc::{AllocError, Global};

/// The addresses that are shown in either mode, before those of the acceptance filter.
const FIRST: [u8; 12] = [0, 2, 3, 4, 6, 7, 8, 11, 12, 13, 14, 15];

/// Those of the acceptance filter, in reset mode.
static FILTER: [u8; 8] = [16, 17, 18, 19, 20, 21, 22, 23];

/// Those of the receive buffer, out of it.
static BUFFER: [u8; 13] = [16, 17, 18, 19, 20, 21, 22, 23, 24, 25, 26, 27, 28];

/// Those behind them.
const LAST: [u8; 3] = [29, 30, 31];

/// Runs a plan in one thread, and tells what the registers of each node read as then, node by node, in the order of
/// their addresses: MOD, SR, IR, IER, BTR0, BTR1, OCR, ALC, ECC, EWLR, RXERR and TXERR; in reset mode ACR0 to ACR3 and
/// AMR0 to AMR3, and out of it RX0 to RX12; and RMC, RBSA and CDR. Nothing is cleared. Versions 1 and 2 have no BTR0,
/// BTR1, OCR, RBSA and CDR.
///
/// Error: [`OutOfMemory`] where memory was refused.
pub fn run_registers(alloc: Global, plan: &Plan) -> Result<Vec<RegisterRow>, OutOfMemory>
    ensures { IfOk result (λ rows. AreRegisters plan.now rows.items) }
{
    plan.limits();
    let mut run = new_run(alloc, plan)?;
    take_turns(&mut run, plan);
    // Asked for what holds of every bus.
    let _ = run.bus.bits_run();
    rows_of(alloc, &mut run, plan.nodes() as u8)
}

/// What the registers of so many nodes read as, the first ones.
fn rows_of(alloc: Global, run: &mut SerialRun, nodes: u8) -> Result<Vec<RegisterRow>, OutOfMemory>
    ghost setup: { Setup }
    requires run { IsRunBy setup run.old }
    requires nodes { nodes ≤ setup.nodes }
    ensures { IfOk result (λ rows. (step_runs : List (List StepRun)) → StandsBy setup run.old step_runs →
        rows.items ≡ rows_below run.old (all_acts step_runs) nodes) }
{
    let mut rows = Vec::new(alloc);
    for node in 0..nodes {
        push_node(&mut rows, run, node)?;
    }
    Ok(rows)
}

/// Adds what the registers of a node read as.
fn push_node(rows: &mut Vec<RegisterRow>, run: &mut SerialRun, node: u8) -> Result<(), AllocError>
    ghost setup: { Setup }
    requires run { IsRunBy setup run.old }
    requires node { node < setup.nodes }
    ensures { OnOk result ((step_runs : List (List StepRun)) → StandsBy setup run.old step_runs →
        AddsNode setup step_runs rows.old.items rows.new.items run.old run.new node) }
{
    let seen = run.seen(node);
    let place = usize::from(node);
    if place >= run.drivers.len() || place >= run.board.ports.len() {
        unreachable!()
    }
    let kept = run.drivers[place].kept();
    push_registers(rows, node, &run.board.ports[place], &kept, &seen)
}

/// Adds what the registers of this port of a node read as.
fn push_registers(
    rows: &mut Vec<RegisterRow>,
    node: u8,
    port: &Port,
    kept: &UnmodelledRegisters,
    seen: &BufferView,
) -> Result<(), AllocError>
    ensures { OnOk result (rows.new.items ≡ rows.old.items ++ node_rows node port.now kept.now seen.now) }
{
    push_some(rows, node, port, kept, seen, &FIRST)?;
    push_some(rows, node, port, kept, seen, window(is_reset(port)))?;
    push_some(rows, node, port, kept, seen, &LAST)
}

/// The addresses from 16 on that are shown, in reset mode or out of it.
fn window(reset: bool) -> &'static [u8]
    ensures { result.now ≡ window_addresses reset }
{
    if reset { &FILTER } else { &BUFFER }
}

/// Adds what its registers at these addresses read as.
fn push_some(
    rows: &mut Vec<RegisterRow>,
    node: u8,
    port: &Port,
    kept: &UnmodelledRegisters,
    seen: &BufferView,
    addresses: &[u8],
) -> Result<(), AllocError>
    ensures { OnOk result (rows.new.items
        ≡ rows.old.items ++ flat_map (row_of node port.now kept.now seen.now) addresses.now) }
{
    let reset = is_reset(port);
    for address in addresses {
        if let Some(value) = shown_value(port, kept, seen, *address) {
            rows.push(RegisterRow {
                node,
                reset,
                address: *address,
                value,
            })?;
        }
    }
    Ok(())
}

/// What a read of an address answers, before it clears anything.
fn shown_value(
    port: &Port,
    kept: &UnmodelledRegisters,
    seen: &BufferView,
    address: u8,
) -> Option<u8>
    ensures { result ≡ shown_value port.now kept.now seen.now address }
{
    match port.peek(address, seen) {
        Some(value) => Some(value),
        None if port.version() < FIRST_BY_BYTES => None,
        None => Some(kept.read(address)),
    }
}
