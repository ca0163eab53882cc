//! The register file of an SJA1000 controller in PeliCAN mode, as a port between a bus and a driver.
//!
//! A driver reads and writes the registers of a [`Port`] by their addresses, loads its transmit buffer and gives it
//! commands. The bus tells it once a bit what happened ([`BusTurn`]), and asks for the driver's [`Orders`]. Contracts
//! see a port as its `Registers` in the data sheet's letters, and the facts of `specs/Facts.antt` hold of every port.
//! The numbers stand in three modules: the address of each register ([`address`]), the bits of each by their letters
//! ([`letters`]), and what a bit of a byte is ([`bits`]). No call of this crate takes memory, and each is a constant
//! amount of work.
#![tactic(auto)]

pub mod address;
pub mod bits;
mod bus_turn;
mod capture;
mod command;
mod commanding;
mod driver_settings;
mod error_state;
mod interrupt_line;
mod interrupts;
mod laws;
pub mod letters;
mod mode;
mod orders;
mod port;
mod reading;
mod reg_fault;
mod register;
mod registers;
mod status;
mod turning;
mod writing;

pub use bus_turn::BusTurn;
pub use can_frame::BufferView;
pub use command::Command;
pub use driver_settings::DriverSettings;
pub use interrupts::Interrupts;
pub use laws::{
    alc_keeps_the_first_loss, ecc_keeps_the_first_fault, ir_keeps_what_was_raised,
    tbs_waits_for_the_end, what_is_written_is_read_back,
};
pub use mode::Mode;
pub use orders::Orders;
pub use port::Port;
pub use reg_fault::RegFault;
pub use register::Register;
pub use status::Status;
