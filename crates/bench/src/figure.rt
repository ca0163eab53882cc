//! [`Figure`]: what can be timed.

use super::buses::{self, Traffic};
use super::document::Document;
use super::watching::{self, BUSY, BUSY_WATCHED, IDLE, IDLE_WATCHED};
use super::{
    contending, faults, frame_reads, hearing, idle, line, node, plans, sending, sessions, shift,
    stream, talk,
};
use std::alloc::Global;

/// What can be timed.
#[derive(Clone, Copy)]
pub enum Figure {
    /// A reader is given lines, one level at a time.
    Shift,
    /// Lines are read whole.
    Line,
    /// Three nodes on one wire send frames to each other, by `sample` alone.
    Node,
    /// Eight nodes on an idle bus.
    Idle,
    /// A node receives frames.
    Hearing,
    /// A node sends frames.
    Sending,
    /// Eight nodes find errors.
    Faults,
    /// Eight nodes contend.
    Contending,
    /// A sender and a receiver.
    Stream,
    /// A bus of a sender and a receiver.
    BusStream,
    /// A bus of eight nodes that contend.
    BusContending,
    /// A bus of eight idle nodes, bit by bit.
    BusIdle,
    /// The same, by stretches of bits that are run at once.
    BusIdleStretch,
    /// A plan is read that has as many steps, turns and strikes as there is room for.
    Plan,
    /// A short plan is read, with comment lines behind it.
    Comments,
    /// A document is refused that has numbers in the place of turns.
    Numbers,
    /// One that has a turn of many words.
    Words,
    /// One that has tables in the place of nodes.
    Tables,
    /// A register of a session is read by its address.
    SessionRead,
    /// Registers of a session are written by their addresses.
    SessionWrite,
    /// The commands of a session are written by their address.
    SessionCommand,
    /// A session of a sender and a receiver.
    SessionStream,
    /// What a driver reads for a frame is read, by its addresses.
    SessionFrameRead,
    /// A session runs idle bits.
    SessionIdle,
    /// It runs idle bits and watches its lines.
    SessionIdleWatched,
    /// It runs the bits of frames.
    SessionBusy,
    /// It runs the bits of frames and watches its lines.
    SessionBusyWatched,
    /// A session is driven line by line.
    LiveSession,
}

/// Every figure, in the order in which `all` tells them.
pub const FIGURES: [Figure; 28] = [
    Figure::Shift,
    Figure::Line,
    Figure::Node,
    Figure::Idle,
    Figure::Hearing,
    Figure::Sending,
    Figure::Faults,
    Figure::Contending,
    Figure::Stream,
    Figure::BusStream,
    Figure::BusContending,
    Figure::BusIdle,
    Figure::BusIdleStretch,
    Figure::Plan,
    Figure::Comments,
    Figure::Numbers,
    Figure::Words,
    Figure::Tables,
    Figure::SessionRead,
    Figure::SessionWrite,
    Figure::SessionCommand,
    Figure::SessionStream,
    Figure::SessionFrameRead,
    Figure::SessionIdle,
    Figure::SessionIdleWatched,
    Figure::SessionBusy,
    Figure::SessionBusyWatched,
    Figure::LiveSession,
];

/// A sender and a receiver.
const STREAM: Traffic = Traffic {
    nodes: 2,
    senders: 1,
    at_once: false,
};

/// Eight nodes, each of which always has a frame to send.
const CONTENDING: Traffic = Traffic {
    nodes: 8,
    senders: 8,
    at_once: false,
};

/// Eight nodes of which none sends.
const BUS_IDLE: Traffic = Traffic {
    nodes: 8,
    senders: 0,
    at_once: false,
};

/// The same, by stretches of bits that are run at once.
const BUS_IDLE_STRETCH: Traffic = Traffic {
    at_once: true,
    ..BUS_IDLE
};

impl Figure {
    /// The figure of this name.
    pub fn named(name: &str) -> Option<Figure> {
        for figure in FIGURES {
            if figure.name() == name {
                return Some(figure);
            }
        }
        None
    }

    /// Its name.
    fn name(self) -> &'static str {
        match self {
            Figure::Shift => "shift",
            Figure::Line => "line",
            Figure::Node => "node",
            Figure::Idle => "idle",
            Figure::Hearing => "hearing",
            Figure::Sending => "sending",
            Figure::Faults => "faults",
            Figure::Contending => "contending",
            Figure::Stream => "stream",
            Figure::BusStream => "bus-stream",
            Figure::BusContending => "bus-contending",
            Figure::BusIdle => "bus-idle",
            Figure::BusIdleStretch => "bus-idle-stretch",
            Figure::Plan => "plan",
            Figure::Comments => "comments",
            Figure::Numbers => "numbers",
            Figure::Words => "words",
            Figure::Tables => "tables",
            Figure::SessionRead => "session-read",
            Figure::SessionWrite => "session-write",
            Figure::SessionCommand => "session-command",
            Figure::SessionStream => "session-stream",
            Figure::SessionFrameRead => "session-frame-read",
            Figure::SessionIdle => "session-idle",
            Figure::SessionIdleWatched => "session-idle-watched",
            Figure::SessionBusy => "session-busy",
            Figure::SessionBusyWatched => "session-busy-watched",
            Figure::LiveSession => "talk",
        }
    }

    /// Does the figure's work so many times, and says what it did: first what is counted and how many. Nothing where
    /// memory was refused or a frame wasn't sent.
    pub fn run(self, alloc: Global, count: u32) -> Option<String> {
        match self {
            Figure::Shift => shift::run(alloc, count),
            Figure::Line => line::run(alloc, count),
            Figure::Node => node::run(alloc, count),
            Figure::Idle => idle::run(alloc, count),
            Figure::Hearing => hearing::run(alloc, count),
            Figure::Sending => sending::run(alloc, count),
            Figure::Faults => faults::run(alloc, count),
            Figure::Contending => contending::run(alloc, count),
            Figure::Stream => stream::run(alloc, count),
            Figure::BusStream => buses::run(alloc, count / 10, STREAM),
            Figure::BusContending => buses::run(alloc, count / 10, CONTENDING),
            Figure::BusIdle => buses::run(alloc, count / 10, BUS_IDLE),
            Figure::BusIdleStretch => buses::run(alloc, count / 10, BUS_IDLE_STRETCH),
            Figure::Plan => plans::run(alloc, count, Document::Steps),
            Figure::Comments => plans::run(alloc, count, Document::Comments),
            Figure::Numbers => plans::run(alloc, count, Document::Numbers),
            Figure::Words => plans::run(alloc, count, Document::Words),
            Figure::Tables => plans::run(alloc, count, Document::Tables),
            Figure::SessionRead => sessions::reads_told(alloc, count),
            Figure::SessionWrite => sessions::writes_told(alloc, count),
            Figure::SessionCommand => sessions::commands_told(alloc, count),
            Figure::SessionStream => sessions::frames_told(alloc, count / 10),
            Figure::SessionFrameRead => frame_reads::run(alloc, count),
            Figure::SessionIdle => watching::run(alloc, count / 10, IDLE),
            Figure::SessionIdleWatched => watching::run(alloc, count / 10, IDLE_WATCHED),
            Figure::SessionBusy => watching::run(alloc, count / 10, BUSY),
            Figure::SessionBusyWatched => watching::run(alloc, count / 10, BUSY_WATCHED),
            Figure::LiveSession => talk::run(alloc, count),
        }
    }
}
