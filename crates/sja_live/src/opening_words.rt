//! What the first line of a talk says.

ghost use Rattle.std.specs.Prelude.{◌≡◌, IfOk, IfErr};
ghost use Rattle.sja_live.specs.Inside.Reading.{IsOpeningRefusal};
ghost use Rattle.sja_live.specs.Lines.{IsReadable};
ghost use Rattle.sja_live.specs.Opening.{IsLiveLine, IsOpeningFault, Opens, least_bits};
ghost use Rattle.sja_plan_reading.specs.Words.{Text, words};

use super::opening::Opening;
use super::opening_fault::OpeningFault;
use super::opening_refusal::OpeningRefusal;
use sja_plan::{FIRST_BY_BYTES, most_bits};
use sja_plan_reading::{find_words, number_within};
use sja_steps::MOST_NODES;
use std::alloc::Global;

/// What the first line says.
///
/// Errors: why it opens no session; or memory was refused.
pub(crate) fn opened(alloc: Global, line: &str) -> Result<Opening, OpeningRefusal>
    requires { IsReadable line.now }
    ensures ok { IfOk result (Opens line.now) }
    ensures err { IfErr result (IsOpeningRefusal line.now) }
{
    let mut words = Vec::new(alloc);
    find_words(&mut words, line)?;
    let [name, version, bits, nodes] = *words.as_slice() else {
        return Err(OpeningRefusal::Fault(OpeningFault::Command));
    };
    if name != "live" {
        return Err(OpeningRefusal::Fault(OpeningFault::Command));
    }
    match opening_of(version, bits, nodes) {
        Ok(opening) => Ok(opening),
        Err(fault) => Err(OpeningRefusal::Fault(fault)),
    }
}

/// The session that the three words of such a line open.
///
/// Error: the first of these words that is wrong.
fn opening_of(version: &str, bits: &str, nodes: &str) -> Result<Opening, OpeningFault>
    ensures ok { (line : Text) → IsLiveLine (words line) version.now bits.now nodes.now → IfOk result (Opens line) }
    ensures err { (line : Text) → IsReadable line → IsLiveLine (words line) version.now bits.now nodes.now
        → IfErr result (IsOpeningFault line) }
{
    let Ok(version) = number_within(version, 1, u32::from(FIRST_BY_BYTES)) else {
        return Err(OpeningFault::Version);
    };
    let version = version as u8;
    let Ok(bits) = number_within(bits, least_bits(version), most_bits(version)) else {
        return Err(OpeningFault::Bits);
    };
    let Ok(nodes) = number_within(nodes, 1, u32::from(MOST_NODES)) else {
        return Err(OpeningFault::Nodes);
    };
    let nodes = nodes as u8;
    Ok(Opening {
        version,
        bits,
        nodes,
    })
}

/// The fewest bits that a session of a version is opened with.
fn least_bits(version: u8) -> u32
    ensures { result ≡ least_bits version }
{
    if version < FIRST_BY_BYTES { 1 } else { 0 }
}
