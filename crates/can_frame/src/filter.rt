//! [`Filter`]: the acceptance filter, a function for each mode and format.

ghost use Rattle.std.specs.Prelude.{◌≡◌, ◌<◌, ◌/◌, ◌^◌, ◌↔◌, ◌⊎◌, IsTrue, slice_index, slice_get};
ghost use Rattle.can_frame.specs.Message.{bit};
ghost use Rattle.can_frame.specs.Filter.{Matches, MatchesStandardHead, MatchesExtendedHead, Passes};
ghost use Rattle.can_frame.specs.Filter.{PassesSingleStandard, PassesSingleExtended};
ghost use Rattle.can_frame.specs.Filter.{PassesFirstStandard, PassesSecondStandard};
ghost use Rattle.can_frame.specs.Filter.{PassesFirstExtended, PassesSecondExtended};

use super::frame::Frame;
use super::register::{Register, halves_match};

/// The acceptance filter: which received frames a controller keeps (SJA1000 data sheet, 6.4.15).
///
/// Each bit of the code registers ACR0 to ACR3 is compared with one bit of the frame, by the filter's mode and the
/// frame's format; a bit of the mask registers AMR0 to AMR3 at 1 means "don't care".
///
/// | Registers | Single, standard | Single, extended | Dual, standard | Dual, extended |
/// |---|---|---|---|---|
/// | ACR0 | ID.28-21 | ID.28-21 | filter 1: ID.28-21 | filter 1: ID.28-21 |
/// | ACR1.7-5 | ID.20-18 | ID.20-18 | filter 1: ID.20-18 | filter 1: ID.20-18 |
/// | ACR1.4 | RTR | ID.17 | filter 1: RTR | filter 1: ID.17 |
/// | ACR1.3-0 | not used | ID.16-13 | filter 1: data byte 1, bits 7 to 4 | filter 1: ID.16-13 |
/// | ACR2 | data byte 1 | ID.12-5 | filter 2: ID.28-21 | filter 2: ID.28-21 |
/// | ACR3.7-5 | data byte 2, bits 7 to 5 | ID.4-2 | filter 2: ID.20-18 | filter 2: ID.20-18 |
/// | ACR3.4 | data byte 2, bit 4 | ID.1 | filter 2: RTR | filter 2: ID.17 |
/// | ACR3.3 | data byte 2, bit 3 | ID.0 | filter 1: data byte 1, bit 3 | filter 2: ID.16 |
/// | ACR3.2 | data byte 2, bit 2 | RTR | filter 1: data byte 1, bit 2 | filter 2: ID.15 |
/// | ACR3.1-0 | data byte 2, bits 1 and 0 | not used | filter 1: data byte 1, bits 1 and 0 | filter 2: ID.14-13 |
///
/// A data byte that the frame doesn't have isn't compared, and a remote frame has none. The dual filter passes a frame
/// where filter 1 or filter 2 does. That bits called "not used" are ignored is this project's own rule.
#[derive(Clone, Copy, Debug, PartialEq, Eq)]
pub struct Filter {
    /// Single filter mode (AFM at 1); otherwise dual filter mode.
    pub single: bool,
    /// The acceptance code registers ACR0 to ACR3.
    pub acr: [u8; 4],
    /// The acceptance mask registers AMR0 to AMR3.
    pub amr: [u8; 4],
}

impl Filter {
    /// Whether the frame passes, by the table above (SJA1000 data sheet, 6.4.15).
    pub fn passes(&self, frame: &Frame) -> bool
        ensures { IsTrue result ↔ Passes self.now frame.now }
    {
        match (self.single, frame.ext()) {
            (true, false) => self.passes_single_standard(frame),
            (true, true) => self.passes_single_extended(frame),
            (false, false) => self.passes_dual_standard(frame),
            (false, true) => self.passes_dual_extended(frame),
        }
    }

    /// An equal filter.
    pub fn copy(&self) -> Filter
        ensures { result ≡ self.now }
    {
        *self
    }

    /// The code and the mask register of this number.
    fn register(&self, number: usize) -> Register
        requires { number < 4 }
        ensures code { result.code ≡ slice_index self.now.acr number }
        ensures mask { result.mask ≡ slice_index self.now.amr number }
    {
        Register {
            code: self.acr[number],
            mask: self.amr[number],
        }
    }

    /// Single filter mode, standard frame.
    fn passes_single_standard(&self, frame: &Frame) -> bool
        ensures { IsTrue result ↔ PassesSingleStandard self.now.acr self.now.amr frame.now }
    {
        let head = standard_head_matches(self.register(0), self.register(1), frame);
        let first = self.register(2).matches_byte(data_byte(frame, 0));
        let second = self.register(3).matches_byte(data_byte(frame, 1));
        head && first && second
    }

    /// Single filter mode, extended frame.
    fn passes_single_extended(&self, frame: &Frame) -> bool
        ensures { IsTrue result ↔ PassesSingleExtended self.now.acr self.now.amr frame.now }
    {
        let head = extended_head_matches(self.register(0), self.register(1), frame);
        let tail = self.matches_extended_tail(frame);
        head && tail
    }

    /// Whether ACR2 and ACR3 match the rest of an extended frame's identifier and RTR: ID.12-5; ID.4-0 in bits 7 to 3,
    /// RTR in bit 2.
    fn matches_extended_tail(&self, frame: &Frame) -> bool
        ensures { IsTrue result
            ↔ (Matches (slice_index self.now.acr 2) (slice_index self.now.amr 2) 0 8 (frame.now.id / 2 ^ 5)
            × Matches (slice_index self.now.acr 3) (slice_index self.now.amr 3) 3 5 frame.now.id
            × Matches (slice_index self.now.acr 3) (slice_index self.now.amr 3) 2 1 (bit frame.now.rtr)) }
    {
        let middle = self.register(2).matches(0, 8, frame.id() >> 5);
        let low = self.register(3).matches(3, 5, frame.id());
        let rtr = self.register(3).matches(2, 1, u32::from(frame.rtr()));
        middle && low && rtr
    }

    /// Dual filter mode, standard frame: filter 1 or filter 2.
    fn passes_dual_standard(&self, frame: &Frame) -> bool
        ensures { IsTrue result ↔ (PassesFirstStandard self.now.acr self.now.amr frame.now
            ⊎ PassesSecondStandard self.now.acr self.now.amr frame.now) }
    {
        let head = standard_head_matches(self.register(0), self.register(1), frame);
        let halves = halves_match(self.register(1), self.register(3), data_byte(frame, 0));
        let second = standard_head_matches(self.register(2), self.register(3), frame);
        (head && halves) || second
    }

    /// Dual filter mode, extended frame: filter 1 or filter 2.
    fn passes_dual_extended(&self, frame: &Frame) -> bool
        ensures { IsTrue result ↔ (PassesFirstExtended self.now.acr self.now.amr frame.now
            ⊎ PassesSecondExtended self.now.acr self.now.amr frame.now) }
    {
        let first = extended_head_matches(self.register(0), self.register(1), frame);
        let second = extended_head_matches(self.register(2), self.register(3), frame);
        first || second
    }
}

/// The data byte at this place from 0, where the frame has it.
fn data_byte(frame: &Frame, place: usize) -> Option<u8>
    ensures { result ≡ slice_get frame.now.bytes place }
{
    frame.bytes().get(place).copied()
}

/// Whether two registers match a standard frame's identifier and RTR: ID.28-21; ID.20-18 in bits 7 to 5, RTR in bit 4.
fn standard_head_matches(first: Register, second: Register, frame: &Frame) -> bool
    ensures { IsTrue result ↔ MatchesStandardHead first.code first.mask second.code second.mask frame.now }
{
    let high = first.matches(0, 8, frame.id() >> 3);
    let low = second.matches(5, 3, frame.id());
    let rtr = second.matches(4, 1, u32::from(frame.rtr()));
    high && low && rtr
}

/// Whether two registers match ID.28-13 of an extended frame.
fn extended_head_matches(first: Register, second: Register, frame: &Frame) -> bool
    ensures { IsTrue result ↔ MatchesExtendedHead first.code first.mask second.code second.mask frame.now }
{
    let high = first.matches(0, 8, frame.id() >> 21);
    let low = second.matches(0, 8, frame.id() >> 13);
    high && low
}
