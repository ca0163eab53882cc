//! A frame that is received, bit by bit.

use super::given::{bit, bit_event, count, enter, message, on_the_bus, received};
use can_levels::{Level, Segment};
use can_node_rules::Phase;
use sja_journal::{Entry, Journal, Recorder, Up};
use sja_replay::{BitEvent, Reception};
use std::alloc::Global;
use std::test::Fail;
use test_frames::{TWO_BYTES, TWO_BYTES_RECEIVED};

/// SOF in bit 11, the ACK slot in bit 64, the sixth bit of EOF in bit 71 and the seventh in bit 72; the message is
/// stored after bit 71.
pub fn reception(alloc: Global) -> Result<Journal, Fail> {
    Ok(written_reception(alloc)?.into_journal()?)
}

/// What is written of it.
fn written_reception(alloc: Global) -> Result<Recorder, Fail> {
    let mut journal = on_the_bus(alloc)?;
    received(&mut journal, TWO_BYTES_RECEIVED, 0, 61, 53)?;
    enter(&mut journal, Entry::Stored(message(&TWO_BYTES)?))?;
    received(&mut journal, TWO_BYTES_RECEIVED, 61, 62, 53)?;
    for _ in 0..3 {
        bit(&mut journal, Level::Recessive, Level::Recessive)?;
    }
    Ok(journal)
}

fn read_bit(alloc: Global, number: u32) -> Result<BitEvent, Fail> {
    match bit_event(&reception(alloc)?, number) {
        Some(bit_event) => Ok(bit_event),
        None => Err(Fail::from("the bit isn't told")),
    }
}

#[test]
fn each_bit_is_told(rt: HostRuntime) -> Result<(), Fail> {
    assert!(rt; count(&reception(rt.alloc())?) == 76);
    Ok(())
}

#[test]
fn the_phases_before_and_after_a_bit_are_told(rt: HostRuntime) -> Result<(), Fail> {
    let last_waiting = read_bit(rt.alloc(), 10)?;
    assert!(rt; last_waiting.before.phase == Phase::Waiting);
    assert!(rt; last_waiting.after.phase == Phase::Idle);
    let start = read_bit(rt.alloc(), 11)?;
    assert!(rt; start.before.phase == Phase::Idle);
    assert!(rt; start.after.phase == Phase::Frame);
    assert!(rt; !start.after.transmits);
    let last_of_frame = read_bit(rt.alloc(), 72)?;
    assert!(rt; last_of_frame.before.phase == Phase::Frame);
    assert!(rt; last_of_frame.after.phase == Phase::Intermission);
    Ok(())
}

/// 123 has the identifier bits 00100100011, in bits 12 to 22; no stuff bit stands there. Then RTR, IDE and reserved bit
/// 0 in bits 23 to 25, and the DLC 0010 from bit 26 on. The stuff bit at place 17 is in bit 28, within the DLC, which
/// so ends with bit 30.
#[test]
fn the_segment_of_a_bit_is_told(rt: HostRuntime) -> Result<(), Fail> {
    assert!(rt; read_bit(rt.alloc(), 11)?.before.segment.is_none());
    assert!(rt; read_bit(rt.alloc(), 19)?.before.segment == Some(Segment::Id28To21));
    assert!(rt; read_bit(rt.alloc(), 20)?.before.segment == Some(Segment::Id20To18));
    assert!(rt; read_bit(rt.alloc(), 23)?.before.segment == Some(Segment::RtrStandard));
    assert!(rt; read_bit(rt.alloc(), 28)?.before.segment == Some(Segment::DataLengthCode));
    assert!(rt; read_bit(rt.alloc(), 31)?.before.segment == Some(Segment::Data));
    assert!(rt; read_bit(rt.alloc(), 63)?.before.segment == Some(Segment::CrcDelimiter));
    assert!(rt; read_bit(rt.alloc(), 64)?.before.segment == Some(Segment::AckSlot));
    assert!(rt; read_bit(rt.alloc(), 72)?.before.segment == Some(Segment::EndOfFrame));
    Ok(())
}

#[test]
fn the_acknowledgement_and_the_reception_are_told(rt: HostRuntime) -> Result<(), Fail> {
    assert!(rt; read_bit(rt.alloc(), 64)?.driven == Level::Dominant);
    let valid = read_bit(rt.alloc(), 71)?;
    assert!(rt; valid.bit == 71);
    assert!(rt; valid.events.received == Some(message(&TWO_BYTES)?.frame()));
    assert!(rt; valid.reception == Some(Reception::Stored));
    assert!(rt; read_bit(rt.alloc(), 70)?.reception.is_none());
    Ok(())
}

/// Without a verdict behind bit 71 the filter stopped the frame.
#[test]
fn a_frame_without_a_verdict_was_stopped(rt: HostRuntime) -> Result<(), Fail> {
    let mut journal = on_the_bus(rt.alloc())?;
    received(&mut journal, TWO_BYTES_RECEIVED, 0, 62, 53)?;
    let Some(valid) = bit_event(&journal.into_journal()?, 71) else {
        return Err(Fail::from("the bit isn't told"));
    };
    assert!(rt; valid.reception == Some(Reception::Stopped));
    Ok(())
}

/// The 5 bytes that were stored come back before bit 75, and no more than that.
#[test]
fn a_credit_is_taken_between_two_bits(rt: HostRuntime) -> Result<(), Fail> {
    for credits in [&[5][..], &[5, 1]] {
        let mut journal = written_reception(rt.alloc())?;
        for credit in credits {
            enter(&mut journal, Entry::Up(Up::Credit(*credit)))?;
            bit(&mut journal, Level::Recessive, Level::Recessive)?;
        }
        assert!(rt; count(&journal.into_journal()?) == 77);
    }
    Ok(())
}
