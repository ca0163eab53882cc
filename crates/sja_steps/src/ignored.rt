//! [`Ignored`]: why a controller ignores what its driver does.

/// Why a controller ignores what a driver of addresses and bytes does, all of it or a part (SJA1000 data sheet). The
/// driver isn't told: a report says `ok`.
#[derive(Clone, Copy, Debug, PartialEq, Eq)]
pub enum Ignored {
    /// The register can only be read (6.4.1).
    ReadOnly,
    /// It can only be written: a read answers 00 in any case (6.4.4).
    WriteOnly,
    /// Reset mode alone takes it (6.4.1); of MOD that is so of LOM, STM and AFM (6.4.3).
    ResetOnly,
    /// In reset mode no command is taken (6.4.2).
    ActiveOnly,
    /// In listen only mode no frame is sent (6.4.3).
    ListenOnly,
    /// TBS is 0: a request isn't over, so no other one is made, and the transmit buffer isn't written (6.4.5).
    Locked,
    /// No message is there that could be released (6.4.4).
    Empty,
}
