//! What is tested of the crates above the nodes in functions, since it isn't a list of calls and answers: refused
//! memory, threads, and logs and links of the tests' own. All else stands in the rows of `test_controller` and
//! `test_program`.
//!
//! | Tests of | Modules |
//! |---|---|
//! | `sja_regs`, `sja_link`, `sja_rings`, `sja_driver` | [`registers`], [`links`], [`rings`], [`drivers`] |
//! | `sja_bus` where memory is refused; which ends are a bus's | [`buses`], [`bus_ends`] |
//! | strikes of runs of each length | [`strikes`] |
//! | whole runs over links of two rings in one thread, by a turn loop of the tests' own | [`ring_runs`] |
//! | `sja_log` where a run has no log | [`run_logs`] |
//! | `sja_replay`, `text_report`, `text_wave` over logs written by hand | [`replay`], [`reports`], [`waves`] |
//! | `sja_serial`, `sja_threads`; writes of bytes whose item comes back | [`turns`], [`threads`] |
//! | `sja_sweep` | [`sweeps`] |
//! | `sja_session` | [`sessions`] |
//!
//! Expected values are written by hand: from the data sheet and the standard, and reports and waves from their formats.
#![tactic(auto)]

#[cfg(test)]
mod bus_ends;
#[cfg(test)]
mod buses;
#[cfg(test)]
mod drivers;
#[cfg(test)]
mod links;
#[cfg(test)]
mod registers;
#[cfg(test)]
mod replay;
#[cfg(test)]
mod reports;
#[cfg(test)]
mod ring_runs;
#[cfg(test)]
mod rings;
#[cfg(test)]
mod run_logs;
#[cfg(test)]
mod sessions;
#[cfg(test)]
mod strikes;
#[cfg(test)]
mod sweeps;
#[cfg(test)]
mod threads;
#[cfg(test)]
mod turns;
#[cfg(test)]
mod waves;
