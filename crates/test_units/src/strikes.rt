//! Strikes of runs of few bits, which are written down bit by bit, and of runs of more bits, up to very many.

use sja_bus::{Bus, SerialBoard, serial_links};
use sja_journal::ACTIVATIONS;
use sja_steps::{FaultScript, Strike};
use std::alloc::Global;

/// Few bits, more than are written down one by one, and very many.
const RUNS: [u64; 3] = [4_000_000, 5_000_000, 1 << 62];

/// A strike of node 0.
fn strike(bit: u64, every: u32, times: u32) -> Strike {
    Strike {
        node: 0,
        bit,
        every,
        times,
    }
}

/// In which bits before this one the only node of a bus is struck, as a driver sees it that runs bits at once: with
/// these strikes, and one more that comes after the first bit that is struck. Nothing where a call is refused.
fn struck_bits(
    alloc: Global,
    bits: u64,
    strikes: &[Strike],
    later: Strike,
    end: u64,
) -> Option<Vec<u64>> {
    let mut script = Vec::new(alloc);
    for one in strikes {
        script.push(*one).ok()?;
    }
    let steps = Vec::from_array(alloc, [10]).ok()?;
    let mut bus = Bus::new(alloc, bits, ACTIVATIONS, steps, FaultScript::of(script)).ok()?;
    let mut links = serial_links(alloc, 1, ACTIVATIONS).ok()?;
    let mut board = SerialBoard::new(alloc, 1, 1).ok()?;
    let mut struck = Vec::new(alloc);
    for _ in 0..100 {
        let left = end - bus.bits_run();
        let count = left.min(u64::from(u32::MAX)) as u32;
        bus.quiet_bits(links.as_mut_slice(), &board, count).ok()?;
        if bus.bits_run() == end {
            return Some(struck);
        }
        struck.push(bus.bits_run()).ok()?;
        bus.bit(links.as_mut_slice(), &mut board).ok()?;
        if struck.len() == 1 {
            bus.strike(later).ok()?;
        }
    }
    None
}

/// Whether these are the bits that are struck, in runs of each length.
fn are_struck(alloc: Global, strikes: &[Strike], later: Strike, end: u64, struck: &[u64]) -> bool {
    for bits in RUNS {
        match struck_bits(alloc, bits, strikes, later, end) {
            Some(found) if found.as_slice() == struck => {}
            _ => return false,
        }
    }
    true
}

#[test]
fn strikes_come_in_order(rt: HostRuntime) {
    let strikes = [
        strike(3_000_000, 0, 5),
        strike(7, 1_000_000, 3),
        strike(2_000_007, 9, 2),
    ];
    let struck = [7, 1_000_007, 1_500_000, 2_000_007, 2_000_016, 3_000_000];
    assert!(rt;
        are_struck(
            rt.alloc(),
            &strikes,
            strike(1_500_000, 1, 1),
            3_500_000,
            &struck
        )
    );
}

#[test]
fn a_later_strike_comes_before_those_that_are_known(rt: HostRuntime) {
    let strikes = [strike(0, 1, 1), strike(100, 1, 2)];
    let struck = [0, 1, 51, 100, 101, 151];
    assert!(rt; are_struck(rt.alloc(), &strikes, strike(1, 50, 4), 200, &struck));
}

#[test]
fn a_strike_of_no_node_and_one_of_no_time_hit_nothing(rt: HostRuntime) {
    let far = Strike {
        node: 8,
        ..strike(5, 1, 10)
    };
    let strikes = [far, strike(6, 1, 0), strike(9, 3, 2)];
    assert!(rt; are_struck(rt.alloc(), &strikes, far, 1_000, &[9, 12]));
}

#[test]
fn the_last_bit_of_a_run_may_be_struck(rt: HostRuntime) {
    let strikes = [strike(3_999_998, 1, 1)];
    let last = strike(3_999_999, 1, 1);
    assert!(rt;
        are_struck(
            rt.alloc(),
            &strikes,
            last,
            4_000_000,
            &[3_999_998, 3_999_999]
        )
    );
}

#[test]
fn a_long_run_meets_strikes_far_ahead(rt: HostRuntime) {
    let strikes = [strike(15_000_000, 2_000_000, 3), strike(19_999_999, 1, 1)];
    let struck = [15_000_000, 16_000_000, 17_000_000, 19_000_000, 19_999_999];
    let later = strike(16_000_000, 1, 1);
    let found = struck_bits(rt.alloc(), 1 << 62, &strikes, later, 20_000_000);
    assert!(rt; matches!(&found, Some(found) if found.as_slice() == struck.as_slice()));
}

/// No bit is taken for the one that has the same 32 bits.
#[test]
fn strikes_past_32_bits_hit_none_before(rt: HostRuntime) {
    let far = 1 << 32;
    let strikes = [strike(7, 1, 1), strike(far + 30, 1, 1)];
    let struck = [7];
    let later = strike(far + 50, 4_000_000_000, 2);
    let found = struck_bits(rt.alloc(), 1 << 62, &strikes, later, 1_000);
    assert!(rt; matches!(&found, Some(found) if found.as_slice() == struck.as_slice()));
}

/// Whether of so many strikes, each taken two bits before its own, each hits its bit, and one far ahead that was taken
/// before them hits its bit still; in none of the bits between anybody is struck. Nothing where a call is refused.
fn are_struck_on_and_on(alloc: Global, count: u64) -> Option<bool> {
    let steps = Vec::from_array(alloc, [10]).ok()?;
    let script = FaultScript::of(Vec::new(alloc));
    let mut bus = Bus::new(alloc, 1 << 62, ACTIVATIONS, steps, script).ok()?;
    let mut links = serial_links(alloc, 1, ACTIVATIONS).ok()?;
    let mut board = SerialBoard::new(alloc, 1, 1).ok()?;
    let far = 3 * count + 1_000;
    bus.strike(strike(far, 1, 1)).ok()?;
    for _ in 0..count {
        bus.strike(strike(bus.bits_run() + 2, 1, 1)).ok()?;
        if bus.quiet_bits(links.as_mut_slice(), &board, 5).ok()? != 2 {
            return Some(false);
        }
        bus.bit(links.as_mut_slice(), &mut board).ok()?;
    }
    let between = bus.quiet_bits(links.as_mut_slice(), &board, 2_000).ok()?;
    Some(between == 1_000 && bus.bits_run() == far)
}

#[test]
fn strikes_that_passed_are_forgotten_and_no_other_one(rt: HostRuntime) {
    assert!(rt; are_struck_on_and_on(rt.alloc(), 10_000) == Some(true));
}
