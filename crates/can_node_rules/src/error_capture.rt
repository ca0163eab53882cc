//! What the error code capture register ECC says of a fault (SJA1000 data sheet, 6.4.9).

ghost use Rattle.std.specs.Prelude.{◌≡◌, ◌*◌};
ghost use Rattle.can_frame.specs.Message.{bit};
ghost use Rattle.can_node_rules.specs.ErrorCode.{error_code, kind_of};

use super::cause::Cause;
use can_levels::Segment;

/// ECC, bit 5: set for an error of a receiver.
const DIRECTION: u8 = 32;

/// The kind of error, as bits 7 and 6 of ECC say it.
fn kind_bits(cause: Cause) -> u8
    ensures { result ≡ 64 * kind_of cause }
{
    match cause {
        Cause::Bit => 0,
        Cause::Form => 64,
        Cause::Stuff => 128,
        Cause::Crc | Cause::Ack => 192,
    }
}

/// The direction of an error, as bit 5 of ECC says it.
fn direction_bit(receiving: bool) -> u8
    ensures { result ≡ 32 * bit receiving }
{
    if receiving { DIRECTION } else { 0 }
}

/// What ECC reads where it captures a fault (SJA1000 data sheet, 6.4.9): its kind in the two highest bits, the
/// direction bit, set where the node receives, and the segment in the five lowest ones.
pub fn error_code(cause: Cause, segment: Segment, receiving: bool) -> u8
    ensures { result ≡ error_code cause segment receiving }
{
    kind_bits(cause) + direction_bit(receiving) + segment.code()
}
