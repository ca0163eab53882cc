//! Worked frames: their messages as bytes, and their lines as digits, 0 dominant and 1 recessive.
//!
//! A line is as its transmitter sends it, with a recessive ACK slot, or as it is received, with a dominant one.
//!
//! [`runs`] has plans, reports and waves, [`nodes`] how a node is started, and [`segments`] the names of segments. The
//! tests of several crates use them.
#![tactic(auto)]

pub mod nodes;
pub mod runs;
pub mod segments;

/// The message of the standard data frame with identifier 0 and no data.
pub const ZEROS: [u8; 3] = [0, 0, 0];

/// Its line as it is sent: 34 dominant levels to the end of the CRC sequence, which is 0, and a stuff bit after each
/// five of them.
pub const ZEROS_SENT: &str = "00000100000100000100000100000100000100001111111111";

/// The same as it is received: level 41 is dominant.
pub const ZEROS_RECEIVED: &str = "00000100000100000100000100000100000100001011111111";

/// The received line with the last bit of its EOF, level 49, dominant.
pub const ZEROS_DOMINANT_END: &str = "00000100000100000100000100000100000100001011111110";

/// The message of the standard data frame with identifier 123 (hexadecimal) and the data 11 22.
pub const TWO_BYTES: [u8; 5] = [0x02, 0x24, 0x60, 0x11, 0x22];

/// Its line as it is sent. Stuff bits stand at places 17 and 40.
pub const TWO_BYTES_SENT: &str = "00010010001100000110000100010010001000001100101101111111111111";

/// The same as it is received: level 53 is dominant.
pub const TWO_BYTES_RECEIVED: &str =
    "00010010001100000110000100010010001000001100101101111011111111";

/// The message of the extended remote frame with identifier 1FFFFFFF (hexadecimal) and DLC 3.
pub const REMOTE_ONES: [u8; 5] = [0xc3, 0xff, 0xff, 0xff, 0xfc];
