//! Sessions that are programs of their own: [`first`] is the first program of `docs/use/LIBRARY.md`,
//! [`polling`] its driver by addresses and bytes, and [`refused_memory`] has each request for memory refused. All else
//! that is tested of sessions stands in rows of `test_controller`.
//!
//! Of sessions of version 3 [`accesses`] is one from the first access to its report, [`answers`] the last answers of
//! one, and [`endless`] is struck far ahead. Runs of plans of version 3 stand in the rows of `test_program`.
//!
//! What is on the bus is worked by hand, from the rules of CAN, and the reports from the format of reports.

mod accesses;
mod answers;
mod calls;
mod endless;
mod first;
mod polling;
mod refused_memory;
