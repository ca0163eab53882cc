//! Plans run over links of two rings, with a turn loop of the tests' own: bus, drivers and ledgers are those of links
//! in one thread, unchanged.

mod message_fates;
mod ring_run;
mod rows;
mod worker;
