//! Sweeps of pairs of strikes.

use super::given::{one_frame, swept, unfolded};
use sja_sweep::{Kinds, Sweeping};
use std::test::Fail;

/// Both nodes of the frame see dominant in the same bit of EOF, and tell it in the next one. Up to its last but one
/// bit, 59, it is an error for both: the frame isn't valid for node 1, and comes once, when it is sent again. In the
/// last bit, 60, it is an error for node 0 alone, an overload for node 1, and the frame comes twice. The flags end
/// together: node 1 counts 1 for its error, and 1 less for the next frame.
const BOTH: &str =
    "outcomes: as without a strike 2, told by ECC 0, twice 1, lost 0, stuck 0, other 0
as planned: bits 64 end turns
    ; node 0 activation 1 released 0 unread 0
    ; node 1 activation 1 released 1 unread 0
    ; node 0 tec 0 rec 0
    ; node 1 tec 0 rec 0
node 0 struck at bits 58-59, node 1 at bits 58-59: bit error at node 0 bit 58 to bit error at node 0 bit 59
    ; as without it
    ; node 0 tec 7 rec 0
    ; node 1 tec 0 rec 0
node 0 struck at bit 60, node 1 at bit 60: bit error at node 0 bit 60
    ; node 1 activation 1 released more 00 00 00
    ; node 1 step 3 3
    ; node 0 tec 7 rec 0
    ; node 1 tec 0 rec 0
runs 3, with another outcome 1
";

/// And its rows.
const BOTH_ROWS: &str = "0 58 1 58 same: bit error at node 0 bit 58
    ; as without it
    ; node 0 tec 7 rec 0
    ; node 1 tec 0 rec 0
0 59 1 59 same: bit error at node 0 bit 59
    ; as without it
    ; node 0 tec 7 rec 0
    ; node 1 tec 0 rec 0
0 60 1 60 other: bit error at node 0 bit 60
    ; node 1 activation 1 released more 00 00 00
    ; node 1 step 3 3
    ; node 0 tec 7 rec 0
    ; node 1 tec 0 rec 0
";

/// Two nodes that wait for eleven recessive bits, where an error counts nothing.
const WAITING: &str = "version = 1
bits = 400
turns = [\"node 0 1\", \"node 1 1\", \"bus 2\"]
[[node]]
steps = [\"start\"]
[[node]]
steps = [\"start\"]
";

/// Of two nodes in two bits each two: six pairs. Those of nodes 0 and 1 in one bit are two bits of one line.
const SIX: &str = "outcomes: as without a strike 6, told by ECC 0, twice 0, lost 0, stuck 0, other 0
as planned: bits 2 end turns
    ; node 0 activation 1 released 0 unread 0
    ; node 1 activation 1 released 0 unread 0
    ; node 0 tec 0 rec 0
    ; node 1 tec 0 rec 0
node 0 struck at bit 0, node 0 at bit 1: no error
    ; as without it
    ; node 0 tec 0 rec 0
    ; node 1 tec 0 rec 0
node 0 struck at bits 0-1, node 1 at bits 0-1: no error
    ; as without it
    ; node 0 tec 0 rec 0
    ; node 1 tec 0 rec 0
node 0 struck at bit 0, node 1 at bit 1: no error
    ; as without it
    ; node 0 tec 0 rec 0
    ; node 1 tec 0 rec 0
node 1 struck at bit 0, node 0 at bit 1: no error
    ; as without it
    ; node 0 tec 0 rec 0
    ; node 1 tec 0 rec 0
node 1 struck at bit 0, node 1 at bit 1: no error
    ; as without it
    ; node 0 tec 0 rec 0
    ; node 1 tec 0 rec 0
runs 6, with another outcome 0
";

/// Both nodes in one bit, in the last three bits of EOF.
#[test]
fn two_strikes_in_one_bit_are_told_with_both_nodes(rt: HostRuntime) -> Result<(), Fail> {
    let sweeping = Sweeping {
        node: None,
        first: 58,
        last: 60,
        pairs: Some(0),
        asked: Kinds::none(),
        meant: false,
    };
    let swept = swept(rt.alloc(), one_frame(), sweeping)?;
    let text = unfolded(rt.alloc(), &swept.text)?;
    assert!(rt; text.as_str() == BOTH);
    let rows = unfolded(rt.alloc(), &swept.rows)?;
    assert!(rt; rows.as_str() == BOTH_ROWS);
    Ok(())
}

/// Each pair of different strikes is tried once, the earlier strike first.
#[test]
fn each_pair_is_tried_once(rt: HostRuntime) -> Result<(), Fail> {
    let mut sweeping = Sweeping::all();
    sweeping.pairs = Some(1);
    let swept = swept(rt.alloc(), WAITING, sweeping)?;
    let text = unfolded(rt.alloc(), &swept.text)?;
    assert!(rt; text.as_str() == SIX);
    Ok(())
}
