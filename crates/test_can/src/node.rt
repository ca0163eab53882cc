//! [`Station`]: a node on a wire, and what it was told so far.

use can_frame::Frame;
use can_levels::Level;
use can_node::Node;
use can_node_rules::{AbortOutcome, BitEvents, Config, Counters, Outcome, Phase, Request};
use test_frames::nodes::PLAIN;

/// A node on a wire, and what it was told so far. Each call is that of the node; what the node's call promises stays
/// out of what a row's program has to prove.
#[derive(Drop)]
pub struct Station {
    node: Node,
    /// How many bits it saw.
    pub bit: u32,
    /// How many frames it received.
    pub received: u32,
    /// The frame that it received last.
    pub last: Option<Frame>,
    /// The bit in which the frame of its request was sent.
    pub sent: Option<u32>,
    /// How many of its requests ended otherwise.
    pub failed: u32,
    /// Where it lost arbitration first and last: the bit and the place code.
    pub first_lost: Option<(u32, u8)>,
    pub last_lost: Option<(u32, u8)>,
}

impl Station {
    /// A node in reset, before it was told anything.
    pub fn new() -> Station {
        Station::of(Node::new())
    }

    /// One that was started so.
    pub fn started(config: Config) -> Station {
        let mut node = Node::new();
        node.start(config);
        Station::of(node)
    }

    /// One with this node, before it was told anything.
    fn of(node: Node) -> Station {
        Station {
            node,
            bit: 0,
            received: 0,
            last: None,
            sent: None,
            failed: 0,
            first_lost: None,
            last_lost: None,
        }
    }

    /// One that was started without a special mode and holds a request for this frame, to be tried again until it is
    /// sent.
    pub fn asked(frame: &Frame) -> Option<Station> {
        let mut station = Station::started(PLAIN);
        let request = Request {
            frame: frame.copy(),
            single_shot: false,
            self_receive: false,
        };
        match station.request(request) {
            Ok(()) => Some(station),
            Err(_) => None,
        }
    }

    /// A start of this kind, where it is in reset. Whether it was.
    pub fn start(&mut self, config: Config) -> bool {
        match self.node.phase() {
            Phase::Reset => {
                self.node.start(config);
                true
            }
            _ => false,
        }
    }

    /// A stop, and a start of this kind. A node that is stopped may be stopped again.
    pub fn restart(&mut self, config: Config) {
        self.node.stop();
        self.node.start(config);
    }

    /// A stop.
    pub fn stop(&mut self) {
        self.node.stop();
    }

    /// Takes a request, or gives one back.
    pub fn request(&mut self, request: Request) -> Result<(), Request> {
        self.node.request(request)
    }

    /// What an order to abort comes to.
    pub fn abort(&mut self) -> AbortOutcome {
        self.node.abort()
    }

    /// The level that it drives in the next bit.
    pub fn drives(&self) -> Level {
        self.node.drive()
    }

    /// Where it is with its next bit.
    pub fn phase(&self) -> Phase {
        self.node.phase()
    }

    /// Its error counters.
    pub fn counters(&self) -> Counters {
        self.node.counters()
    }

    /// Whether it is at rest.
    pub fn rests(&self) -> bool {
        self.node.at_rest()
    }

    /// The place code at which it lost arbitration first.
    pub fn first_code(&self) -> Option<u8> {
        self.first_lost.map(|lost| lost.1)
    }

    /// The place code at which it lost arbitration last.
    pub fn last_code(&self) -> Option<u8> {
        self.last_lost.map(|lost| lost.1)
    }

    /// Sees the level of its next bit.
    pub fn sees(&mut self, level: Level) -> BitEvents {
        let events = self.node.sample(level);
        self.note(&events);
        self.bit = self.bit.wrapping_add(1);
        events
    }

    /// Notes what a bit brought.
    fn note(&mut self, events: &BitEvents) {
        match events.ended {
            Some(Outcome::Sent) => self.sent = Some(self.bit),
            Some(Outcome::Failed) => self.failed = self.failed.wrapping_add(1),
            None => {}
        }
        if let Some(code) = events.lost {
            self.last_lost = Some((self.bit, code));
            self.first_lost = self.first_lost.or(self.last_lost);
        }
        if let Some(frame) = &events.received {
            self.received = self.received.wrapping_add(1);
            self.last = Some(frame.copy());
        }
    }
}
