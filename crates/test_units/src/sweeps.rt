//! Of `sja_sweep`: whole sweeps and single lines, worked by hand from the standard, and the refusals.
//!
//! The frame of the plans has the identifier 0 and no data. All its bits before the CRC delimiter are 0, so its CRC
//! sequence is 0 too, and a stuff bit stands behind each fifth bit: it is 50 bits long. With eleven bits of bus
//! integration before it, SOF is bit 11, RTR bit 25, the CRC delimiter bit 51, the ACK slot bit 52, and EOF bits 54 to
//! 60. Its stuff bits are 16, 22, 28, 34, 40 and 46.

mod given;
mod jobs;
mod lines;
mod one_frame;
mod pairs;
mod refusals;
mod steps;
