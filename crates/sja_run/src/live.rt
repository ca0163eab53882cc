//! `live`: a session that is driven line by line.

ghost use Rattle.std.specs.Prelude.{◌≡◌, false};
ghost use Rattle.sja_program.specs.Replies.{IsOneWhereFailed};
ghost use Rattle.sja_run.specs.Live.{ShowsLiveSession};

use sja_live::{LiveSessionEnd, LiveSessionFault, talk};
use sja_program::Output;
use std::alloc::Global;
use std::io::{Read, Write};
use text_codec::CommandRefusal;

/// Talks with whoever writes the input, and gives the exit status: 0 where the talk ended with a report, 1 where its
/// first line opened no session, or where memory was refused, a read or a write failed.
pub(crate) fn reply_live<R: Read, O: Write, E: Write>(
    alloc: Global,
    input: &mut R,
    out: &mut Output<O>,
    err: &mut Output<E>,
) -> u8
    ensures failed { IsOneWhereFailed out.old.failed err.old.failed out.new.failed err.new.failed result }
    ensures answered { out.new.failed ≡ false → err.new.failed ≡ false
        → ShowsLiveSession result (R.remaining input.old) (R.remaining input.new)
        (O.contents out.old.writer) (O.contents out.new.writer)
        (E.contents err.old.writer) (E.contents err.new.writer) }
{
    if out.failed {
        return 1;
    }
    match talk(alloc, input, &mut out.writer) {
        Ok(LiveSessionEnd::Reported) => 0,
        Ok(LiveSessionEnd::Unopened) => 1,
        Err(LiveSessionFault::Memory) => err.refuse(CommandRefusal::OutOfMemory),
        Err(LiveSessionFault::Read) => err.refuse(CommandRefusal::Read),
        Err(LiveSessionFault::Write) => {
            out.failed = true;
            1
        }
    }
}
