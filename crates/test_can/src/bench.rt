//! [`Bench`]: the stations of a row, the reader of its levels, and what its calls have answered.

use super::acts::of_driver;
use super::bits::of_bits;
use super::contention::{contended, together};
use super::frames::of_frames;
use super::generation::of_generated;
use super::hexadecimal::number;
use super::levels::level_of;
use super::lines::of_lines;
use super::node::Station;
use super::notation::of_notation;
use super::row_answers::RowAnswers;
use super::shown::of_station;
use super::streaming::{codes, of_reader, segments};
use super::wire::Wire;
use super::words::{config_of, request_of};
use can_bits::Shift;
use std::alloc::{AllocError, Global};
use test_frames::nodes::PLAIN;

/// The stations of a row, the reader of its levels, and what its calls have answered.
#[derive(Drop)]
pub struct Bench {
    alloc: Global,
    told: RowAnswers,
    reader: Shift,
    wire: Wire,
    /// The place of the station that a call speaks of.
    place: usize,
}

impl Bench {
    /// Without stations, and with nothing said.
    pub fn new(alloc: Global) -> Bench {
        Bench {
            alloc,
            told: RowAnswers::new(alloc),
            reader: Shift::new(),
            wire: Wire::new(alloc),
            place: 0,
        }
    }

    /// What was answered, each answer behind a blank, or that memory was refused.
    pub fn render(self) -> Result<String, AllocError> {
        self.told.text()
    }

    /// Does a call, and says what it answers.
    ///
    /// A call is of one of the files `frames`, `notation`, `contention` and `generated`, of
    /// [`levels`](Bench::levels), or of [`wired`](Bench::wired).
    pub fn does(&mut self, call: &str) {
        let (name, rest) = call.split_once(' ').unwrap_or((call, ""));
        let (alloc, told) = (self.alloc, &mut self.told);
        match name {
            "frame" | "message" | "length" | "byte" | "default" | "single" | "dual" => {
                of_frames(told, name, rest);
            }
            "text" | "read" => of_notation(told, name, rest),
            "contend" => contended(alloc, told, rest),
            "together" => together(alloc, told, rest),
            "readers" | "sets" | "quick" => of_generated(alloc, told, name, rest),
            _ => self.levels(name, rest),
        }
    }

    /// Does a call of levels, of `streaming` or `lines`.
    fn levels(&mut self, name: &str, rest: &str) {
        let (alloc, told) = (self.alloc, &mut self.told);
        match name {
            "stream" | "take" | "untold" | "matches" | "due" | "over" => {
                of_reader(told, &mut self.reader, name, rest);
            }
            "codes" => codes(alloc, told, rest),
            "segment" => segments(told, rest),
            "line" | "front" | "crc" | "reads" | "again" | "body" | "fronts" | "says" | "levels" =>
                of_lines(alloc, told, name, rest),
            _ => self.wired(name, rest),
        }
    }

    /// Does a call of stations.
    ///
    /// `new`, one in reset, `active tec=100`, one that was started, and `ask 000000 once`, one that was started without
    /// a special mode and holds a request: the next calls speak of it, up to `at 0`, from which on they speak of the
    /// first one. `strike 50 1`, the second station sees the other level in bit 50. Those of the whole wire are of
    /// [`runs`](Bench::runs), and those of one station alone of `acts`, `bits` and `shown`.
    fn wired(&mut self, name: &str, rest: &str) {
        match name {
            "new" | "active" | "ask" => self.adds(made(name, rest)),
            "at" => match number(rest) {
                Some(place) => self.place = place as usize,
                None => self.told.unread(),
            },
            "strike" => match two_numbers(rest) {
                Some((bit, place)) => self.wire.strike(bit, place as usize),
                None => self.told.unread(),
            },
            "to" | "home" | "silent" | "all" | "rested" => self.runs(name, rest),
            _ => self.alone(name, rest),
        }
    }

    /// Adds a station, of which the next calls speak.
    fn adds(&mut self, station: Option<Station>) {
        match station {
            Some(station) => {
                self.place = self.wire.stations().len();
                if self.wire.add(station).is_err() {
                    self.told.refuse();
                }
            }
            None => self.told.unread(),
        }
    }

    /// Runs the wire: `to 61`, the bits before this one; `home`, those until all stations are at rest, and whether they
    /// came to rest; `silent 300`, as `to`, and whether the station drove recessive in each of these bits; `all 0`, a
    /// bit in which all see this level; and `rested`, whether all are at rest.
    fn runs(&mut self, name: &str, rest: &str) {
        match (name, number(rest)) {
            ("to", Some(end)) => self.wire.run_to(end),
            ("silent", Some(end)) => self.told.said(self.wire.is_silent_to(end, self.place)),
            ("home", None) => self.told.said(self.wire.run_to_rest()),
            ("rested", None) => self.told.said(self.wire.rests()),
            _ => match level_of(rest) {
                Some(level) => self.wire.show_all(level),
                None => self.told.unread(),
            },
        }
    }

    /// Does a call of one station.
    fn alone(&mut self, name: &str, rest: &str) {
        let told = &mut self.told;
        let Some(station) = self.wire.station(self.place) else {
            return told.unread();
        };
        match name {
            "give" | "abort" | "stop" | "start" | "restart" => of_driver(told, station, name, rest),
            "see"
            | "echo"
            | "flip"
            | "hear"
            | "phases"
            | "count"
            | "pass"
            | "run"
            | "struck"
            | "falls" => of_bits(told, station, name, rest),
            _ => of_station(told, station, name),
        }
    }
}

/// The station that a call adds.
fn made(name: &str, rest: &str) -> Option<Station> {
    match name {
        "new" => Some(Station::new()),
        "active" => Some(Station::started(config_of(rest)?)),
        _ => {
            let mut station = Station::started(PLAIN);
            station.request(request_of(rest)?).ok()?;
            Some(station)
        }
    }
}

/// Two numbers.
fn two_numbers(words: &str) -> Option<(u32, u32)> {
    let (first, second) = words.split_once(' ')?;
    Some((number(first)?, number(second)?))
}
