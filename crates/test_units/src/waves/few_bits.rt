//! A run of five bits, whole.

use Level::{Dominant, Recessive};
use can_frame::Message;
use can_levels::Level;
use sja_journal::{Entry, Journal, Recorder, Up};
use sja_log::{End, NodeRun, RunLog};
use std::alloc::Global;
use std::test::Fail;
use test_frames::nodes::PLAIN;
use test_frames::runs::DECLARED;
use text_wave::wave;

/// The wave of the two journals below after the declarations of the bus and of node 0.
///
/// Bit 0 begins at 0, bit 1 at 10, and so on; at 40 nothing changes, and at 50 the last bit ends. No bus writes such
/// journals, since a node drives nothing right after its start: of the first one no bit is told, and of the second one
/// bit 0 alone, in reset. So the numbers keep 0. In bits 3 and 4 node 0 sees what nobody drives.
const FIVE_BITS: &str = "$scope module node1 $end
$var wire 1 d1 driven $end
$var wire 1 s1 seen $end
$var wire 1 a1 active $end
$var wire 1 f1 off $end
$var wire 1 m1 stored $end
$var wire 1 o1 overrun $end
$var real 64 t1 tec $end
$var real 64 r1 rec $end
$var wire 1 x1 struck $end
$var real 64 p1 phase $end
$upscope $end
$upscope $end
$enddefinitions $end
#0
$dumpvars
0w
0d0
0s0
1a0
0f0
0m0
0o0
r0 t0
r0 r0
0x0
r0 p0
1d1
0s1
0a1
0f1
0m1
0o1
r0 t1
r0 r1
0x1
r0 p1
$end
#10
1d0
0d1
1a1
#20
1w
1s0
1m0
1d1
1s1
#30
0s0
1x0
1o1
#50
0a0
1f0
0a1
1m1
";

/// A node with this journal.
fn node(alloc: Global, journal: Journal) -> NodeRun {
    NodeRun::of(journal, 0, 0, Vec::new(alloc), Vec::new(alloc))
}

/// A journal of these entries, each by its word; a bit by what the node drives and what it sees, `d` dominant and `r`
/// recessive.
fn journal(alloc: Global, words: &str) -> Result<Journal, Fail> {
    let mut journal = Recorder::new(alloc, 10, 1_000)?;
    for word in words.split(' ') {
        let _ = journal.enter(entry(word));
    }
    Ok(journal.into_journal()?)
}

/// The entry that a word is.
fn entry(word: &str) -> Entry {
    match word {
        "start" => Entry::Up(Up::Start(PLAIN)),
        "stop" => Entry::Up(Up::Stop),
        "credit" => Entry::Up(Up::Credit(3)),
        "stored" => Entry::Stored(Message::default()),
        "overrun" => Entry::Overrun(Message::default()),
        "abort" => Entry::Abort,
        "off" => Entry::Off,
        bit => Entry::Bit(level(bit.starts_with('d')), level(bit.ends_with('d'))),
    }
}

/// Dominant, or recessive.
fn level(is_dominant: bool) -> Level {
    if is_dominant { Dominant } else { Recessive }
}

/// Node 0 is active from the first bit on, and is struck in the last two, after which it goes bus-off.
const STRUCK: &str = "start dd rd stored rr rd abort rd off";

/// Node 1 starts before bit 1, and stops after the last one.
const STOPPED: &str = "rd start dd rr overrun credit rr rr stored stop";

/// The wave of both.
fn shown(alloc: Global) -> Result<String, Fail> {
    let mut nodes = Vec::new(alloc);
    nodes.push(node(alloc, journal(alloc, STRUCK)?))?;
    nodes.push(node(alloc, journal(alloc, STOPPED)?))?;
    Ok(wave(alloc, &RunLog::of(1, 5, End::Bits, nodes))?)
}

#[test]
fn five_bits_of_two_nodes_are_shown(rt: HostRuntime) -> Result<(), Fail> {
    let text = shown(rt.alloc())?;
    assert!(rt;
        text.as_str().strip_prefix(DECLARED) == Some(FIVE_BITS),
        "{text}"
    );
    Ok(())
}
