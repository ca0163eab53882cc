//! The sweep of one frame between two nodes, whole.

use super::given::{one_frame, swept, unfolded};
use sja_sweep::{Kinds, Sweeping};
use std::test::Fail;

/// The lines of the sweep. Each is worked by hand from Bosch CAN 2.0 part A, sections 3.1 (frames), 5 (bit
/// stuffing), 6 (errors) and 8 (fault confinement).
///
/// Node 0, the transmitter. In bits 0 to 10 it waits for eleven recessive bits, and begins to wait anew: its frame
/// comes later. In bits 11 to 58 it has a bit, stuff, form or acknowledgement error and sends again: TEC is 8, and
/// 7 after the frame. Bits 16 and 22 are recessive stuff bits before RTR: a stuff error during arbitration leaves
/// TEC (section 8, exception 2 of rule 3). In the last but one bit of EOF, 59, and in the last one, 60, the frame
/// is valid for node 1 already, and comes twice. In bits 61 and 62 node 0 tells an overload. What it sees dominant
/// in the third bit of the intermission is a SOF for the other: after bit 62 for node 1, which has a stuff error in
/// bit 68; in bit 63 for itself: a stuff error in bit 69, and its flag is a SOF for node 1, whose error flag begins
/// in bit 76 and counts 8 for node 0.
///
/// Node 1, the receiver. Struck in bits 0 to 10 it misses the frame, and in bit 11 its SOF; in both nobody
/// acknowledges. A data bit that is struck before the last stuff bit, 46, takes away a stuff bit: it sees one more
/// bit, and, where it sees no more data for that, dominant in bit 50, where it takes the CRC delimiter to be: its
/// error flag comes first and ends first, which counts 8 more. A struck stuff bit is a stuff error, and node 0 sees
/// the last bit of that flag in its next recessive bit: in bit 22 after bit 16, a stuff error during arbitration
/// that leaves TEC, and behind RTR after the others. Struck in bits 23 and 24 it takes bit 28 for the first bit of
/// the DLC, which is 8; in bit 25 (RTR) too, but then for a remote frame. By this, in bits 26 and 27 (IDE, r0) and
/// in 29 to 32 (DLC) it takes the frame for a longer one, and in 47 to 50 its CRC sequence is wrong: it doesn't
/// acknowledge, and node 0 tells the error. From bit 51 to 59 it tells an error, and the frame comes again; in bits
/// 60 and 61 an overload.
const LINES: &str =
    "outcomes: as without a strike 126, told by ECC 0, twice 2, lost 0, stuck 0, other 0
as planned: bits 64 end turns
    ; node 0 activation 1 released 0 unread 0
    ; node 1 activation 1 released 1 unread 0
    ; node 0 tec 0 rec 0
    ; node 1 tec 0 rec 0
node 0 struck at bits 0-10: no error
    ; as without it
    ; node 0 tec 0 rec 0
    ; node 1 tec 0 rec 0
node 0 struck at bits 11-15: bit error at node 0 bit 11 to bit error at node 0 bit 15
    ; as without it
    ; node 0 tec 7 rec 0
    ; node 1 tec 0 rec 0
node 0 struck at bit 16: stuff error at node 0 bit 16
    ; as without it
    ; node 0 tec 0 rec 0
    ; node 1 tec 0 rec 0
node 0 struck at bits 17-21: bit error at node 0 bit 17 to bit error at node 0 bit 21
    ; as without it
    ; node 0 tec 7 rec 0
    ; node 1 tec 0 rec 0
node 0 struck at bit 22: stuff error at node 0 bit 22
    ; as without it
    ; node 0 tec 0 rec 0
    ; node 1 tec 0 rec 0
node 0 struck at bits 23-58: bit error at node 0 bit 23 to bit error at node 0 bit 58
    ; as without it
    ; node 0 tec 7 rec 0
    ; node 1 tec 0 rec 0
node 0 struck at bits 59-60: bit error at node 0 bit 59 to bit error at node 0 bit 60
    ; node 1 activation 1 released more 00 00 00
    ; node 1 step 3 3
    ; node 0 tec 7 rec 0
    ; node 1 tec 0 rec 0
node 0 struck at bit 61: no error
    ; as without it
    ; node 0 tec 0 rec 0
    ; node 1 tec 0 rec 0
node 0 struck at bit 62: stuff error at node 1 bit 68
    ; as without it
    ; node 0 tec 0 rec 0
    ; node 1 tec 0 rec 1
node 0 struck at bit 63: stuff error at node 0 bit 69
    ; as without it
    ; node 0 tec 0 rec 9
    ; node 1 tec 0 rec 1
node 1 struck at bits 0-11: acknowledgement error at node 0 bit 52
    ; as without it
    ; node 0 tec 7 rec 0
    ; node 1 tec 0 rec 0
node 1 struck at bits 12-15: form error at node 1 bit 50
    ; as without it
    ; node 0 tec 7 rec 0
    ; node 1 tec 0 rec 8
node 1 struck at bit 16: stuff error at node 1 bit 16
    ; as without it
    ; node 0 tec 0 rec 0
    ; node 1 tec 0 rec 8
node 1 struck at bits 17-22: form error at node 1 bit 50 to stuff error at node 1 bit 22
    ; as without it
    ; node 0 tec 7 rec 0
    ; node 1 tec 0 rec 8
node 1 struck at bits 23-24: acknowledgement error at node 0 bit 52
    ; as without it
    ; node 0 tec 7 rec 0
    ; node 1 tec 0 rec 0
node 1 struck at bit 25: form error at node 1 bit 50
    ; as without it
    ; node 0 tec 7 rec 0
    ; node 1 tec 0 rec 8
node 1 struck at bits 26-27: acknowledgement error at node 0 bit 52
    ; as without it
    ; node 0 tec 7 rec 0
    ; node 1 tec 0 rec 0
node 1 struck at bit 28: stuff error at node 1 bit 28
    ; as without it
    ; node 0 tec 7 rec 0
    ; node 1 tec 0 rec 8
node 1 struck at bits 29-32: acknowledgement error at node 0 bit 52
    ; as without it
    ; node 0 tec 7 rec 0
    ; node 1 tec 0 rec 0
node 1 struck at bits 33-46: form error at node 1 bit 50 to stuff error at node 1 bit 46
    ; as without it
    ; node 0 tec 7 rec 0
    ; node 1 tec 0 rec 8
node 1 struck at bits 47-50: acknowledgement error at node 0 bit 52
    ; as without it
    ; node 0 tec 7 rec 0
    ; node 1 tec 0 rec 0
node 1 struck at bits 51-59: form error at node 1 bit 51 to form error at node 1 bit 59
    ; as without it
    ; node 0 tec 7 rec 0
    ; node 1 tec 0 rec 8
node 1 struck at bits 60-61: no error
    ; as without it
    ; node 0 tec 0 rec 0
    ; node 1 tec 0 rec 0
node 1 struck at bit 62: stuff error at node 0 bit 68
    ; as without it
    ; node 0 tec 0 rec 1
    ; node 1 tec 0 rec 0
node 1 struck at bit 63: stuff error at node 1 bit 69
    ; as without it
    ; node 0 tec 0 rec 1
    ; node 1 tec 0 rec 9
runs 128, with another outcome 2
";

/// Of the same sweep what is asked for: node 0 from bit 58 to bit 60, and only lines with another outcome.
const TWICE: &str =
    "outcomes: as without a strike 1, told by ECC 0, twice 2, lost 0, stuck 0, other 0
as planned: bits 64 end turns
    ; node 0 activation 1 released 0 unread 0
    ; node 1 activation 1 released 1 unread 0
    ; node 0 tec 0 rec 0
    ; node 1 tec 0 rec 0
node 0 struck at bits 59-60: bit error at node 0 bit 59 to bit error at node 0 bit 60
    ; node 1 activation 1 released more 00 00 00
    ; node 1 step 3 3
    ; node 0 tec 7 rec 0
    ; node 1 tec 0 rec 0
runs 3, with another outcome 2
";

/// And its rows.
const ROWS: &str = "0 58 same: bit error at node 0 bit 58
    ; as without it
    ; node 0 tec 7 rec 0
    ; node 1 tec 0 rec 0
0 59 other: bit error at node 0 bit 59
    ; node 1 activation 1 released more 00 00 00
    ; node 1 step 3 3
    ; node 0 tec 7 rec 0
    ; node 1 tec 0 rec 0
0 60 other: bit error at node 0 bit 60
    ; node 1 activation 1 released more 00 00 00
    ; node 1 step 3 3
    ; node 0 tec 7 rec 0
    ; node 1 tec 0 rec 0
";

/// Each node in each bit.
#[test]
fn a_frame_comes_twice_by_a_strike_in_the_last_two_bits_of_its_eof(
    rt: HostRuntime,
) -> Result<(), Fail> {
    let swept = swept(rt.alloc(), one_frame(), Sweeping::all())?;
    let text = unfolded(rt.alloc(), &swept.text)?;
    assert!(rt; text.as_str() == LINES);
    Ok(())
}

/// One node, three bits, and lines with another outcome.
#[test]
fn a_sweep_strikes_what_is_asked_for(rt: HostRuntime) -> Result<(), Fail> {
    let sweeping = Sweeping {
        node: Some(0),
        first: 58,
        last: 60,
        pairs: None,
        asked: Kinds {
            changed: true,
            ..Kinds::none()
        },
        meant: false,
    };
    let swept = swept(rt.alloc(), one_frame(), sweeping)?;
    let text = unfolded(rt.alloc(), &swept.text)?;
    assert!(rt; text.as_str() == TWICE);
    let rows = unfolded(rt.alloc(), &swept.rows)?;
    assert!(rt; rows.as_str() == ROWS);
    Ok(())
}
