//! [`Wire`]: several stations on one wire.

use super::node::Station;
use can_frame::Frame;
use can_levels::Level;
use std::alloc::{AllocError, Global};

/// More bits than any of the rows needs.
const MANY: u32 = 5_000;

/// Several stations on one wire.
#[derive(Drop)]
pub struct Wire {
    stations: Vec<Station>,
    /// The next bit.
    bit: u32,
    /// In this bit the station at this place sees the other level.
    strike: Option<(u32, usize)>,
}

impl Wire {
    /// A wire without stations.
    pub fn new(alloc: Global) -> Wire {
        Wire {
            stations: Vec::new(alloc),
            bit: 0,
            strike: None,
        }
    }

    /// Adds a station.
    pub fn add(&mut self, station: Station) -> Result<(), AllocError> {
        self.stations.push(station)?;
        Ok(())
    }

    /// A wire of stations that were started without a special mode, each with a request for one of these frames; none
    /// where memory is refused.
    pub fn of(alloc: Global, frames: &[Frame]) -> Option<Wire> {
        let mut wire = Wire::new(alloc);
        for frame in frames {
            wire.add(Station::asked(frame)?).ok()?;
        }
        Some(wire)
    }

    /// The stations.
    pub fn stations(&self) -> &[Station] {
        self.stations.as_slice()
    }

    /// The station at this place.
    pub fn station(&mut self, place: usize) -> Option<&mut Station> {
        self.stations.get_mut(place)
    }

    /// From now on the station at this place sees the other level in this bit, and in no other.
    pub fn strike(&mut self, bit: u32, place: usize) {
        self.strike = Some((bit, place));
    }

    /// The level of the wire: dominant where any station drives dominant.
    fn level(&self) -> Level {
        let mut level = Level::Recessive;
        for station in self.stations.as_slice() {
            if station.drives() == Level::Dominant {
                level = Level::Dominant;
            }
        }
        level
    }

    /// The next bit of the wire.
    fn run(&mut self) {
        let level = self.level();
        for (place, station) in self.stations.iter_mut().enumerate() {
            let struck = self.strike == Some((self.bit, place));
            station.sees(if struck { level.opposite() } else { level });
        }
        self.bit = self.bit.wrapping_add(1);
    }

    /// A bit in which all stations see this level.
    pub fn show_all(&mut self, level: Level) {
        for station in self.stations.iter_mut() {
            station.sees(level);
        }
        self.bit = self.bit.wrapping_add(1);
    }

    /// The bits before this one.
    pub fn run_to(&mut self, end: u32) {
        for _ in self.bit..end {
            self.run();
        }
    }

    /// The bits before this one. Whether the station at this place drives recessive in each.
    pub fn is_silent_to(&mut self, end: u32, place: usize) -> bool {
        let mut silent = true;
        for _ in self.bit..end {
            silent = silent && self.drives_recessive(place);
            self.run();
        }
        silent
    }

    /// Whether the station at this place drives recessive.
    fn drives_recessive(&self, place: usize) -> bool {
        match self.stations.get(place) {
            Some(station) => station.drives().is_recessive(),
            None => false,
        }
    }

    /// Whether all stations are at rest.
    pub fn rests(&self) -> bool {
        for station in self.stations.as_slice() {
            if !station.rests() {
                return false;
            }
        }
        true
    }

    /// The bits until all stations are at rest. Whether they came to rest.
    pub fn run_to_rest(&mut self) -> bool {
        for _ in 0..MANY {
            if self.rests() {
                return true;
            }
            self.run();
        }
        false
    }
}
