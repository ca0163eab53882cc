//! Drivers in threads of their own that wait for the interrupt line.

use super::driver_threads::GAVE_UP;
use super::part::Part;
use super::passing::{HANDED, released};
use can_frame::Message;
use sja_regs::address::{IER, IR};
use sja_steps::Step;
use std::test::Fail;

/// A driver that waits looks again until a message has come.
#[test]
fn a_message_raises_the_line(rt: HostRuntime) -> Result<(), Fail> {
    let steps = [
        Step::Write(IER, 0x01),
        Step::Start,
        Step::Interrupt,
        Step::Release,
        Step::Stop,
    ];
    let expected = "ok, ok, ok, 3, ok";
    let part = Part::HandOver(Message::from_bytes(&HANDED)?);
    assert!(rt; released(&rt, rt.alloc(), &steps, part, expected)? == 1);
    Ok(())
}

#[test]
fn a_wait_for_the_line_is_given_up_with_the_bits(rt: HostRuntime) -> Result<(), Fail> {
    let steps = [Step::Start, Step::Interrupt, Step::Stop];
    assert!(rt; released(&rt, rt.alloc(), &steps, Part::Shut, GAVE_UP)? == 0);
    Ok(())
}

/// An interrupt that is no message's, and that comes while the driver waits, is found by its next look.
#[test]
fn a_bit_raises_the_line(rt: HostRuntime) -> Result<(), Fail> {
    let steps = [
        Step::Write(IER, 0x04),
        Step::Start,
        Step::Interrupt,
        Step::Read(IR),
        Step::Stop,
    ];
    let expected = "ok, ok, ok, 04, ok";
    assert!(rt; released(&rt, rt.alloc(), &steps, Part::Warn, expected)? == 0);
    Ok(())
}
