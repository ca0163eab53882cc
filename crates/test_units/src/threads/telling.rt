//! What a board by itself finds at a port, and what a driver beside it counts.

use super::part::Part;
use super::passing::{HANDED, handed_back};
use can_frame::Message;
use sja_steps::Step;
use std::test::Fail;

/// The abort stands once the port was told that bits have run, and from then on each step counts these.
#[test]
fn a_board_finds_an_abort_and_a_step_counts_the_bits_told(rt: HostRuntime) -> Result<(), Fail> {
    let steps = [
        Step::Start,
        Step::Load(Message::from_bytes(&HANDED)?),
        Step::Command(0x01),
        Step::Command(0x02),
        Step::Await(1),
        Step::Stop,
    ];
    let expected = "ok, ok, ok, ok, refused Closed, ok";
    let worked = handed_back(&rt, rt.alloc(), &steps, Part::Abort, expected)?;
    let Some(last) = worked.driver.log().done()?.last() else {
        return Err("no step was done")?;
    };
    assert!(rt; last.bits == 5);
    Ok(())
}
