//! What a call answers.

ghost use Rattle.std.specs.Prelude.{◌≡◌, ◌≢◌};
ghost use Rattle.sja_c.specs.Answers.{answer, refusal, number_of, no_handle_status};

use sja_calls::CallFault;

/// What a call answers: how it went, as `enum sja_status` of `c/sja.h` has it, and a number.
#[repr(C)]
#[derive(Drop)]
pub struct SjaAnswer {
    /// How it went.
    pub status: u32,
    /// Whose interrupt line rose, where bits that were run came to that: the node's number and 1; else 0.
    pub rose: u32,
    /// The number.
    pub value: u64,
}

/// A call was done, and gives this number.
pub(crate) fn done(value: u64) -> SjaAnswer
    ensures { result ≡ answer 0 value }
{
    SjaAnswer {
        status: 0,
        rose: 0,
        value,
    }
}

/// Bits were run, so many, up to the rise of a node's line where one rose.
pub(crate) fn done_bits(bits: u32, rose: Option<u8>) -> SjaAnswer
    ensures { result ≡ record (answer 0 bits) { rose = number_of rose } }
{
    let rose = match rose {
        Some(node) => u32::from(node) + 1,
        None => 0,
    };
    SjaAnswer {
        status: 0,
        rose,
        value: u64::from(bits),
    }
}

/// The handle is null.
pub(crate) fn no_handle() -> SjaAnswer
    ensures { result ≡ answer no_handle_status 0 }
{
    SjaAnswer {
        status: 1,
        rose: 0,
        value: 0,
    }
}

/// A call wasn't done.
pub(crate) fn refused(fault: CallFault) -> SjaAnswer
    ensures is { result ≡ refusal fault }
    ensures not { result.status ≢ 0 }
{
    match fault {
        CallFault::Ended => plain(2),
        CallFault::Version => plain(3),
        CallFault::Bits => plain(4),
        CallFault::Nodes => plain(5),
        CallFault::NoAddress => plain(6),
        CallFault::NoByte => plain(7),
        CallFault::NoNode => plain(8),
        CallFault::NoBit => plain(9),
        CallFault::Past => plain(10),
        CallFault::StepsUsed => plain(11),
        CallFault::TurnsUsed => plain(12),
        CallFault::StrikesUsed => plain(13),
        CallFault::NoPlan => plain(14),
        CallFault::NoDocument => plain(15),
        CallFault::NoRoom(size) => SjaAnswer {
            status: 16,
            rose: 0,
            value: size as u64,
        },
        CallFault::Memory => plain(17),
        CallFault::NoPlace => plain(19),
        CallFault::Endless => plain(20),
    }
}

/// An answer without a number.
fn plain(status: u32) -> SjaAnswer
    ensures { result ≡ answer status 0 }
{
    SjaAnswer {
        status,
        rose: 0,
        value: 0,
    }
}
