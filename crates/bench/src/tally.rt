//! [`Tally`]: what nodes were told of all their bits.

use can_node_rules::{BitEvents, Outcome};
use std::fmt::{Display, Error, Formatter, Write};

/// What nodes were told of all their bits.
#[derive(Drop)]
pub struct Tally {
    samples: u64,
    sent: u64,
    received: u64,
    checksum: u64,
}

impl Tally {
    /// Nothing was told.
    pub fn new() -> Tally {
        Tally {
            samples: 0,
            sent: 0,
            received: 0,
            checksum: 0,
        }
    }

    /// Takes in what one bit brought to a node.
    pub fn add(&mut self, events: &BitEvents) {
        if let Some(frame) = &events.received {
            self.received = self.received.wrapping_add(1);
            self.mix(u64::from(frame.id()));
        }
        if events.ended == Some(Outcome::Sent) {
            self.sent = self.sent.wrapping_add(1);
        }
        if let Some(code) = events.lost {
            self.mix(u64::from(code));
        }
        if let Some((_, segment)) = events.fault {
            self.mix(u64::from(segment.code()));
        }
        self.mix(u64::from(events.receiving));
    }

    /// Counts so many bits of nodes.
    pub fn pass(&mut self, samples: u64) {
        self.samples = self.samples.wrapping_add(samples);
    }

    /// Goes into the checksum.
    fn mix(&mut self, number: u64) {
        self.checksum = self.checksum.wrapping_mul(31).wrapping_add(number);
    }
}

impl Display for Tally {
    fn fmt<W: Write>(&self, f: &mut Formatter<W>) -> Result<(), Error> {
        write!(
            f,
            "samples {} sent {} received {} checksum {:016x}",
            self.samples, self.sent, self.received, self.checksum
        )
    }
}
