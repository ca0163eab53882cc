//! Lines of sweeps: a frame that comes twice to another receiver, one that is lost, and a plan without bits.

use super::given::{swept, unfolded};
use sja_sweep::{Kinds, Sweeping};
use std::test::Fail;

/// One sender and two receivers.
const THREE_NODES: &str = "version = 1
bits = 400
turns = [\"node 0 3\", \"node 1 1\", \"node 2 1\", \"rest\"]
[[node]]
steps = [\"start\", \"load 000000\", \"command 01\"]
[[node]]
steps = [\"start\"]
[[node]]
steps = [\"start\"]
";

/// Node 1 tells an error in the last but one bit of EOF. Node 2 sees its flag in the last bit, when the frame is valid
/// for it already; node 0 sends again. Node 1's flag ends first, which counts 8 more: 9, and 8 after the frame.
const ANOTHER_RECEIVER: &str =
    "outcomes: as without a strike 0, told by ECC 0, twice 1, lost 0, stuck 0, other 0
as planned: bits 64 end turns
    ; node 0 activation 1 released 0 unread 0
    ; node 1 activation 1 released 0 unread 1
    ; node 2 activation 1 released 0 unread 1
    ; node 0 tec 0 rec 0
    ; node 1 tec 0 rec 0
    ; node 2 tec 0 rec 0
node 1 struck at bit 59: form error at node 1 bit 59
    ; node 2 activation 1 unread more 00 00 00
    ; node 0 tec 7 rec 0
    ; node 1 tec 0 rec 8
    ; node 2 tec 0 rec 0
runs 1, with another outcome 1
";

/// A frame that is tried once (command 03), and its receiver.
const ONCE: &str = "version = 1
bits = 400
turns = [\"node 0 3\", \"node 1 1\", \"rest\", \"node 1 1\"]
[[node]]
steps = [\"start\", \"load 000000\", \"command 03\"]
[[node]]
steps = [\"start\", \"release\"]
";

/// Up to bit 58 the frame isn't valid for node 1 when it sees the error flag. It has an error of its own and is sent no
/// frame that would take it back.
const LOST: &str =
    "outcomes: as without a strike 2, told by ECC 0, twice 0, lost 2, stuck 0, other 0
as planned: bits 64 end turns
    ; node 0 activation 1 released 0 unread 0
    ; node 1 activation 1 released 1 unread 0
    ; node 0 tec 0 rec 0
    ; node 1 tec 0 rec 0
node 0 struck at bits 57-58: bit error at node 0 bit 57 to bit error at node 0 bit 58
    ; node 1 activation 1 released less 00 00 00
    ; node 1 step 2 refused Empty
    ; node 0 tec 8 rec 0
    ; node 1 tec 0 rec 1
node 0 struck at bits 59-60: bit error at node 0 bit 59 to bit error at node 0 bit 60
    ; as without it
    ; node 0 tec 8 rec 0
    ; node 1 tec 0 rec 0
runs 4, with another outcome 2
";

/// Nothing is run: there is no turn.
const NO_BITS: &str = "version = 1
bits = 400
[[node]]
steps = [\"start\"]
";

/// No run, and no line of a strike.
const NONE: &str =
    "outcomes: as without a strike 0, told by ECC 0, twice 0, lost 0, stuck 0, other 0
as planned: bits 0 end turns
    ; node 0 tec 0 rec 0
runs 0, with another outcome 0
";

/// What is asked for: this node, from the first bit to the last one.
fn from_to(node: u8, first: u32, last: u32) -> Sweeping {
    Sweeping {
        node: Some(node),
        first,
        last,
        pairs: None,
        asked: Kinds::none(),
        meant: false,
    }
}

/// A strike in the last but one bit of EOF at one receiver: the frame comes twice to the other one.
#[test]
fn a_frame_comes_twice_to_another_receiver(rt: HostRuntime) -> Result<(), Fail> {
    let swept = swept(rt.alloc(), THREE_NODES, from_to(1, 59, 59))?;
    let text = unfolded(rt.alloc(), &swept.text)?;
    assert!(rt; text.as_str() == ANOTHER_RECEIVER);
    Ok(())
}

/// A frame that is tried once is lost by a strike up to the last but two bits of EOF.
#[test]
fn a_frame_that_is_tried_once_is_lost(rt: HostRuntime) -> Result<(), Fail> {
    let swept = swept(rt.alloc(), ONCE, from_to(0, 57, 60))?;
    let text = unfolded(rt.alloc(), &swept.text)?;
    assert!(rt; text.as_str() == LOST);
    Ok(())
}

/// A plan whose run has no bits has no run with a strike.
#[test]
fn a_plan_without_bits_has_nothing_to_strike(rt: HostRuntime) -> Result<(), Fail> {
    let swept = swept(rt.alloc(), NO_BITS, Sweeping::all())?;
    let text = unfolded(rt.alloc(), &swept.text)?;
    assert!(rt; text.as_str() == NONE);
    assert!(rt; swept.rows.as_str() == "");
    Ok(())
}
