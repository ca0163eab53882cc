//! Two drivers on one bus, called by hand: that of node 0 sends a message, and that of node 1 releases it.
//!
//! It is the shortest way to drive a bus without a plan by the calls of these crates, to be copied.
#![tactic(auto)]

ghost use Rattle.std.specs.Prelude.{◌≡◌, IfSome, length};

use can_frame::Message;
use sja_bus::{Bus, SerialBoard, serial_links};
use sja_driver::Driver;
use sja_link::DequeLinks;
use sja_regs::{Port, letters};
use sja_steps::FaultScript;
use std::alloc::Global;
use std::process::ExitCode;

/// The message of the frame with the identifier 123 (hexadecimal) and the data 11 22.
const SENT: [u8; 5] = [0x02, 0x24, 0x60, 0x11, 0x22];

/// The command that requests a transmission (SJA1000 data sheet, 6.4.4).
const TRANSMIT: u8 = 1 << letters::TR;

/// For how many starts of its controller each node has links.
const STARTS: u64 = 1;

/// Answers the exit status: 0 where the message was released and printed, else 1.
fn main(rt: HostRuntime) -> ExitCode {
    match pass_and_print(&rt) {
        Some(()) => ExitCode::from(0),
        None => ExitCode::from(1),
    }
}

/// Has the message sent and released, and prints the bytes that were released. Nothing where that fails.
fn pass_and_print(rt: &HostRuntime) -> Option<()> {
    let message = Message::from_bytes(&SENT).ok()?;
    let released = passed_on(rt.alloc(), &message)?;
    print!(rt; "node 1 released").ok()?;
    for byte in released.bytes() {
        print!(rt; " {byte:02x}").ok()?;
    }
    println!(rt; "").ok()
}

/// What the driver of node 1 releases after 100 bits, where that of node 0 sends this message. Nothing where a call is
/// refused.
fn passed_on(alloc: Global, message: &Message) -> Option<Message> {
    let mut bus = bus_of_two(alloc)?;
    let mut links = serial_links(alloc, 2, STARTS).ok()?;
    let mut board = SerialBoard::new(alloc, 2, 1).ok()?;
    send(&mut links[0], &mut board.ports[0], message)?;
    let Ok(mut receiver) = Driver::new(1).start(&mut links[1], &mut board.ports[1]) else {
        return None;
    };
    bus.bits(links.as_mut_slice(), &mut board, 100, false).ok()?;
    receiver.release_message(&mut links[1]).ok()
}

/// A bus of two nodes for 1000 bits, with room for ten steps of each driver. Nothing where memory is refused.
fn bus_of_two(alloc: Global) -> Option<Bus>
    ensures nodes { IfSome result (λ bus. length bus.journals ≡ 2) }
    ensures starts { IfSome result (λ bus. bus.starts ≡ 1) }
{
    let steps = Vec::from_elem(alloc, 10, 2).ok()?;
    Bus::new(alloc, 1000, STARTS, steps, FaultScript::of(Vec::new(alloc))).ok()
}

/// Starts the driver of node 0 over its links, and asks it to send this message. Nothing where a call is refused.
fn send(links: &mut DequeLinks, port: &mut Port, message: &Message) -> Option<()>
    requires { links.old.node ≡ 0 }
    ensures node { links.new.node ≡ links.old.node }
    ensures starts { links.new.starts ≡ links.old.starts }
{
    let mut driver = Driver::new(0).start(links, port).ok()?;
    driver.load(port, message).ok()?;
    driver.command(links, port, TRANSMIT).ok()
}
