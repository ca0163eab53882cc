//! Sweeps in several threads.

use super::given::{one_frame, swept, swept_in};
use sja_sweep::{Kinds, Sweeping};
use std::test::Fail;

/// One, two, three and eight threads give the texts of one thread, and none counts as one.
#[test]
fn the_texts_are_the_same_for_each_number_of_threads(rt: HostRuntime) -> Result<(), Fail> {
    let alone = swept(rt.alloc(), one_frame(), Sweeping::all())?;
    for jobs in [0usize, 1, 2, 3, 8] {
        let among = swept_in(&rt, one_frame(), Sweeping::all(), jobs)?;
        assert!(rt; among.text.as_str() == alone.text.as_str());
        assert!(rt; among.rows.as_str() == alone.rows.as_str());
    }
    Ok(())
}

/// More threads than runs: the runs are three.
#[test]
fn each_of_few_runs_is_made_once(rt: HostRuntime) -> Result<(), Fail> {
    let sweeping = Sweeping {
        node: Some(0),
        first: 58,
        last: 60,
        pairs: None,
        asked: Kinds::none(),
        meant: false,
    };
    let alone = swept(rt.alloc(), one_frame(), sweeping)?;
    let among = swept_in(&rt, one_frame(), sweeping, 8)?;
    assert!(rt; among.text.as_str() == alone.text.as_str());
    assert!(rt; among.rows.as_str() == alone.rows.as_str());
    Ok(())
}
