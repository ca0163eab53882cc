//! Drivers in threads of their own, and a bus whose ports stand behind their locks, over links of two rings.

mod accesses;
mod configurations;
mod driver_threads;
mod gate_counts;
mod gates;
mod given_back;
mod interrupts;
mod meeting;
mod part;
mod passing;
mod runs;
mod steps;
mod telling;
