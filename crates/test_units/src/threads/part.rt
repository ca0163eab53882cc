//! [`Part`]: what the bus does beside a driver that has a thread of its own.

use can_frame::Message;
use sja_bus::Board;
use sja_journal::{Down, Up};
use sja_link::BusEnd;
use sja_rings::NodeBus;
use sja_threads::{LockedPort, TurnBoard, TurnsOfNode};
use std::alloc::Global;
use std::marker::Brand;
use std::sync::{Mutex, Wait};
use std::thread::yield_now;
use test_words::turn_of;

/// What the bus does once the driver has started.
#[derive(Drop)]
pub enum Part {
    /// It puts this message, and takes a credit and the stop.
    HandOver(Message),
    /// Its bits are spent: it closes the port, and takes the stop.
    Shut,
    /// It tells the port of a bit in which the receive error counter comes to its limit, and takes the stop.
    Warn,
    /// It takes a request, tells the port that five bits have run until an abort is found to stand, closes the port,
    /// and takes the stop.
    Abort,
}

impl Part {
    /// Does it. Whether the items that came were these.
    pub fn is_done<R: Wait>(
        self,
        rt: &R,
        alloc: Global,
        end: NodeBus,
        ports: &[Mutex<LockedPort<Brand>>],
        told: TurnsOfNode<Brand>,
    ) -> bool {
        let mut end = end;
        let mut turns = Vec::new(alloc);
        if ports.len() == 0 || turns.push(told).is_err() {
            return false;
        }
        let board = TurnBoard {
            rt,
            ports,
            told: turns,
        };
        let starts = matches!(taken(rt, &mut end), Up::Start(_));
        starts
            && match self {
                Part::HandOver(message) => hand_over(rt, &mut end, message),
                Part::Shut => shut(rt, &mut end, board),
                Part::Warn => warn(rt, &mut end, board),
                Part::Abort => abort(rt, &mut end, board),
            }
    }
}

/// Waits for the next item that the driver gives.
fn taken(rt: &impl Wait, end: &mut NodeBus) -> Up {
    for _ in rt.forever() {
        if let Some(item) = end.take(1) {
            return item;
        }
        yield_now();
    }
    unreachable!()
}

/// Puts the message, and takes a credit and the stop.
fn hand_over(rt: &impl Wait, end: &mut NodeBus, message: Message) -> bool {
    let puts = end.put(1, Down::Message(message)).is_ok();
    let credits = matches!(taken(rt, end), Up::Credit(_));
    let stops = matches!(taken(rt, end), Up::Stop);
    puts && credits && stops
}

/// Closes the port, and takes the stop that comes once the wait was given up.
fn shut<R: Wait>(rt: &R, end: &mut NodeBus, board: TurnBoard<Brand, R>) -> bool {
    let mut board = board;
    board.close(0);
    matches!(taken(rt, end), Up::Stop)
}

/// Tells the port of a bit in which the receive error counter comes to its limit, and takes the stop.
fn warn<R: Wait>(rt: &R, end: &mut NodeBus, board: TurnBoard<Brand, R>) -> bool {
    let Some(turn) = turn_of(&["rx=60"]) else {
        return false;
    };
    let mut board = board;
    board.bus_turn(0, turn);
    matches!(taken(rt, end), Up::Stop)
}

/// Takes a request, finds that an abort stands, closes the port, and takes the stop that comes once the wait was given
/// up.
fn abort<R: Wait>(rt: &R, end: &mut NodeBus, board: TurnBoard<Brand, R>) -> bool {
    let mut board = board;
    let sends = matches!(taken(rt, end), Up::Send(_));
    find_abort(rt, &mut board);
    sends && shut(rt, end, board)
}

/// Tells the port that five bits have run, until an abort is found to stand.
fn find_abort<R: Wait>(rt: &R, board: &mut TurnBoard<Brand, R>) {
    for _ in rt.forever() {
        board.tell_bits(5);
        if board.orders(0).abort {
            return;
        }
        yield_now();
    }
    unreachable!()
}
