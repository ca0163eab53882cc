//! Drivers: starts and stops, windows, and what comes back. The rows of scripts in `test_controller` have their
//! steps.

mod each_given_back;
mod endless;
mod given;
mod given_back;
mod logs;
mod refused_memory;
mod starts;
mod windows;
