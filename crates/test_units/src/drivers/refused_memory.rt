//! Refused memory: a log that has no room for its steps isn't made.
//!
//! It answers well with and without memory, so that each allocation can be made to fail under it.

use can_frame::OutOfMemory;
use sja_driver::WorkLog;

#[test]
fn refused_memory_gives_no_log(rt: HostRuntime) {
    match WorkLog::new(rt.alloc(), 3, 3, 3) {
        Ok(log) => assert!(rt;
            log.done().map(|all| all.len()) == Ok(0)
                && log.released().map(|all| all.len()) == Ok(0)
                && log.left().map(|all| all.len()) == Ok(0)
        ),
        Err(refused) => assert!(rt; refused == OutOfMemory),
    }
}
