//! [`Bench`]: the bus of a row, what is left of it, and what its calls have answered.

use super::bus_start::{BusStart, bus_begun};
use super::buses::of_bus;
use super::drivers::of_driver;
use super::late::leaves_the_same;
use super::lawless_calls::of_end;
use super::left::of_left;
use super::logs::are_same_logs;
use super::row_answers::RowAnswers;
use super::scripts::of_script;
use sja_bus::NodeLog;
use std::alloc::{AllocError, Global};
use std::mem;

/// The bus of a row, what is left of it, and what its calls have answered.
#[derive(Drop)]
pub struct Bench {
    alloc: Global,
    told: RowAnswers,
    bus: Option<BusStart>,
    /// What is left of the bus that ended last.
    left: Vec<NodeLog>,
    /// What is left of one that ended before, and is kept.
    kept: Vec<NodeLog>,
}

impl Bench {
    /// Without a bus.
    pub fn new(alloc: Global) -> Bench {
        Bench {
            alloc,
            told: RowAnswers::new(alloc),
            bus: None,
            left: Vec::new(alloc),
            kept: Vec::new(alloc),
        }
    }

    /// What was answered, each answer behind a blank, or that memory was refused.
    pub fn render(self) -> Result<String, AllocError> {
        self.told.text()
    }

    /// Does a call, and says what it answers.
    ///
    /// Those of [`bus_begun`] begin a bus, `end` ends it, `keep` ends it and keeps what is left, and `same` says
    /// whether that is what is left of the bus that ended last. Other calls are of [`of_left`], [`of_script`],
    /// [`leaves_the_same`], [`of_driver`], [`of_end`] and [`of_bus`].
    pub fn does(&mut self, words: &[&str]) {
        match words {
            ["bus" | "alone" | "asked" | "lawless", ..] => self.begins(words),
            ["end"] => self.ends(),
            ["keep"] => self.keeps(),
            ["same"] => {
                let same = are_same_logs(self.left.as_slice(), self.kept.as_slice());
                self.told.said(same && self.left.len() > 0);
            }
            ["struck" | "strikes" | "listed", ..] => of_script(self.alloc, &mut self.told, words),
            ["late", after, row] => self.told.asked(leaves_the_same(self.alloc, after, row)),
            [name, rest @ ..] => self.asks(words, name, rest),
            [] => self.told.unread(),
        }
    }

    /// Begins a bus.
    fn begins(&mut self, words: &[&str]) {
        self.bus = bus_begun(self.alloc, words);
        if self.bus.is_none() {
            self.told.unread();
        }
    }

    /// Ends the bus, if there is one.
    fn ends(&mut self) {
        let left = match self.bus.take() {
            Some(BusStart::Driven(rig)) => rig.finish(),
            Some(BusStart::Lawless(bus)) => bus.finish(),
            None => return,
        };
        match left {
            Some(left) => self.left = left,
            None => self.told.unread(),
        }
    }

    /// Ends the bus, and keeps what is left of it.
    fn keeps(&mut self) {
        self.ends();
        mem::swap(&mut self.left, &mut self.kept);
    }

    /// Asks something of the bus, or of what is left of it.
    fn asks(&mut self, words: &[&str], name: &str, rest: &[&str]) {
        let told = &mut self.told;
        match &mut self.bus {
            None => of_left(told, self.left.as_slice(), name, rest),
            Some(BusStart::Driven(rig)) => match name {
                "start"
                | "stop"
                | "load"
                | "command"
                | "read"
                | "write"
                | "release"
                | "unread"
                | "give"
                | "get"
                | "left"
                | "rounds"
                | "sends"
                | "severals" => of_driver(told, rig, name, rest),
                _ => of_bus(told, &mut rig.bus, words),
            },
            Some(BusStart::Lawless(bus)) => match name {
                "shows" | "waits" | "back" | "tries" => of_end(told, bus, name, rest),
                _ => of_bus(told, bus, words),
            },
        }
    }
}
