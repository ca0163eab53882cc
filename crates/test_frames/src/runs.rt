//! Worked runs: plans with their reports, and what a wave begins with.

/// A plan of two nodes: node 0 sends the frame with identifier 0, one of them is struck in its last bit, and node 1
/// releases twice after the rest.
macro_rules! struck_plan {
    ($node:literal) => {
        concat!(
            "version = 1
bits = 200
turns = [\"node 0 3\", \"node 1 1\", \"rest\", \"node 1 2\"]
faults = [\"",
            $node,
            " 60\"]
[[node]]
steps = [\"start\", \"load 000000\", \"command 01\"]
[[node]]
steps = [\"start\", \"release\", \"release\"]
"
        )
    };
}

/// Its report: with so many bits and this transmit error counter of node 0,
/// and with what follows node 1's first release.
macro_rules! struck_report {
    ($bits:literal, $counter:literal, $end:literal) => {
        concat!(
            "sja version 1 bits ",
            $bits,
            " end turns
node 0 tec ",
            $counter,
            " rec 0 steps 3
step 1 ok
step 2 ok
step 3 ok
activation 1 stored 0 overrun 0 free 64
node 1 tec 0 rec 0 steps 3
step 1 ok
step 2 3
",
            $end
        )
    };
}

/// The plan of a frame whose receiver is struck: node 1, in its last bit.
pub const RECEIVER_STRUCK: &str = struck_plan!("1");

/// Its report: the receiver has the frame and sends an overload flag; the transmitter counts it as sent.
pub const STORED_ONCE: &str = struck_report!(
    "79",
    "0",
    "step 3 refused Empty
activation 1 stored 1 overrun 0 free 64
released 00 00 00
"
);

/// The same plan with the transmitter struck.
pub const TRANSMITTER_STRUCK: &str = struck_plan!("0");

/// Its report: the transmitter takes the frame as failed, and sends it again.
pub const STORED_TWICE: &str = struck_report!(
    "132",
    "7",
    "step 3 3
activation 1 stored 2 overrun 0 free 64
released 00 00 00
released 00 00 00
"
);

/// What a wave begins with: the declarations of the bus and of node 0.
pub const DECLARED: &str = "$timescale 100 ns $end
$scope module can $end
$var wire 1 w bus $end
$scope module node0 $end
$var wire 1 d0 driven $end
$var wire 1 s0 seen $end
$var wire 1 a0 active $end
$var wire 1 f0 off $end
$var wire 1 m0 stored $end
$var wire 1 o0 overrun $end
$var real 64 t0 tec $end
$var real 64 r0 rec $end
$var wire 1 x0 struck $end
$var real 64 p0 phase $end
$upscope $end
";

/// What follows where no other node is there, and this one is active on an idle bus from the first bit on: the end of
/// the declarations, and the values at the first bit but that of the phase.
pub const FIRST_VALUES: &str = "$upscope $end
$enddefinitions $end
#0
$dumpvars
1w
1d0
1s0
1a0
0f0
0m0
0o0
r0 t0
r0 r0
0x0
";
