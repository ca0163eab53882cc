//! The quick way of a bit and the plain one, over the same bits: both nodes of a pair show the same.

use super::events::is_quiet;
use super::random::next;
use can_frame::Frame;
use can_levels::Level;
use can_node::Node;
use can_node_rules::{Config, Request};
use test_frames::nodes::PLAIN;

/// Numbers that look random, always the same ones.
#[derive(Drop)]
struct Numbers {
    last: u64,
}

impl Numbers {
    /// The next number below this limit; 0 where the limit is 0.
    fn below(&mut self, limit: u32) -> u32 {
        self.last = next(self.last);
        ((self.last >> 33) as u32).checked_rem(limit).unwrap_or(0)
    }

    /// Once in so many calls.
    fn once_in(&mut self, many: u32) -> bool {
        self.below(many) == 0
    }

    /// A request with one of several frames.
    fn request(&mut self) -> Option<Request> {
        let frame = self.frame()?;
        Some(Request {
            frame,
            single_shot: self.once_in(4),
            self_receive: self.once_in(4),
        })
    }

    /// One of several frames.
    fn frame(&mut self) -> Option<Frame> {
        let ext = self.once_in(2);
        let id = self.below(0x800);
        let byte = (self.below(256) & 255) as u8;
        match self.below(4) {
            0 => Frame::new(ext, id, false, 0, &[]),
            1 => Frame::new(ext, id, true, 3, &[]),
            2 => Frame::new(ext, id, false, 1, &[byte]),
            _ => Frame::new(ext, id, false, 8, &[byte, 0, 255, byte, 85, 15, 1, byte]),
        }
        .ok()
    }

    /// One of the four modes.
    fn config(&mut self) -> Config {
        Config {
            self_test: self.once_in(2),
            listen: self.once_in(8),
            ..PLAIN
        }
    }
}

/// Two nodes that see the same. One takes each bit by the plain call, and the other by the quick one first.
#[derive(Drop)]
struct Pair {
    plain: Node,
    quick: Node,
    /// How many bits went the quick way.
    quiet: u32,
}

impl Pair {
    /// Two nodes in reset.
    fn new() -> Pair {
        Pair {
            plain: Node::new(),
            quick: Node::new(),
            quiet: 0,
        }
    }

    /// A bit in which both see this level. Whether both were told the same, and show the same.
    fn sees(&mut self, level: Level) -> bool {
        let counters = self.quick.counters();
        let phase = self.quick.phase();
        let events = self.plain.sample_fully(level);
        let told = if self.quick.sample_quietly(level) {
            self.quiet = self.quiet.wrapping_add(1);
            is_quiet(&events) && self.quick.counters() == counters && self.quick.phase() == phase
        } else {
            self.quick.sample(level) == events
        };
        told && self.is_alike()
    }

    /// Whether both show the same.
    fn is_alike(&self) -> bool {
        self.plain.drive() == self.quick.drive()
            && self.plain.counters() == self.quick.counters()
            && self.plain.phase() == self.quick.phase()
            && self.plain.at_rest() == self.quick.at_rest()
    }

    /// Both are stopped.
    fn stop(&mut self) {
        self.plain.stop();
        self.quick.stop();
    }

    /// Both are stopped, and started in this mode.
    fn restart(&mut self, numbers: &mut Numbers) {
        let number = numbers.last;
        self.plain.stop();
        self.plain.start(numbers.config());
        numbers.last = number;
        self.quick.stop();
        self.quick.start(numbers.config());
    }

    /// Both get the same request. Whether both took it, or neither.
    fn request(&mut self, numbers: &mut Numbers) -> bool {
        let number = numbers.last;
        let first = numbers.request();
        numbers.last = number;
        let second = numbers.request();
        match (first, second) {
            (Some(one), Some(other)) => {
                self.plain.request(one).is_ok() == self.quick.request(other).is_ok()
            }
            _ => false,
        }
    }

    /// Both are told to abort. Whether both answered the same.
    fn abort(&mut self) -> bool {
        self.plain.abort() == self.quick.abort()
    }

    /// What comes from outside before a bit, now and then. Whether both answered the same.
    fn is_called(&mut self, numbers: &mut Numbers) -> bool {
        let mut alike = true;
        if numbers.once_in(3_000) {
            self.restart(numbers);
        }
        if numbers.once_in(20_000) {
            self.stop();
        }
        if numbers.once_in(150) {
            alike = self.request(numbers);
        }
        if numbers.once_in(700) {
            alike = alike && self.abort();
        }
        alike && self.is_alike()
    }
}

/// So many bits of three pairs on one wire. Each node sees the wire, or now and then the other level. How many bits the
/// first pair took the quick way; none where the nodes of a pair aren't alike.
pub fn quick_bits(bits: u32) -> Option<u32> {
    let mut numbers = Numbers { last: 7 };
    let mut pairs = [Pair::new(), Pair::new(), Pair::new()];
    let mut alike = true;
    for bit in 0..bits {
        let calm = bit % 4_000 < 2_000;
        let (called, wire) = called(&mut pairs, &mut numbers);
        alike = alike && called;
        for pair in pairs.iter_mut() {
            let struck = numbers.once_in(if calm { 5_000 } else { 60 });
            let level = if struck { wire.opposite() } else { wire };
            alike = pair.sees(level) && alike;
        }
    }
    if alike { Some(pairs[0].quiet) } else { None }
}

/// What comes from outside before a bit: whether each pair answered the same, and the level of the wire then.
fn called(pairs: &mut [Pair; 3], numbers: &mut Numbers) -> (bool, Level) {
    let mut alike = true;
    let mut wire = Level::Recessive;
    for pair in pairs.iter_mut() {
        alike = pair.is_called(numbers) && alike;
        if pair.plain.drive() == Level::Dominant {
            wire = Level::Dominant;
        }
    }
    (alike, wire)
}
