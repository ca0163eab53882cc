//! The waveform of a run: what was on the bus, and what became of each node, bit by bit.
//!
//! [`wave`] makes of the log of a run the text of a value change dump (IEEE 1364), which programs for logic analysers
//! read. Bit k begins at time 10 k, in units of 100 ns. After the values at the first bit only what changes is written.
//! Each journal is gone over once, and with it a replay (`sja_replay`), which tells the error counters and the phase of
//! each bit by the cut of the node's record.
//!
//! `specs/AllSignals.antt` says which signals there are, `Wires.antt` and `Numbers.antt` what they show, each as a
//! function of the bit, and `WaveText.antt` what is written of them.
#![tactic(auto)]

mod changes;
mod cursor;
mod declarations;
mod gauges;
mod meter;
mod probe;
mod probes;
mod signals;
mod values;
mod wave_text;

pub use wave_text::wave;
