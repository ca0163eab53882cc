//! Lines, bit by bit, and boxes.

ghost use Rattle.std.specs.Prelude.{◌≡◌, ◌++◌, OnOk, string_bytes};
ghost use Rattle.text_svg.specs.Elements.{step_to, box_front, box_end, box_of};
ghost use Rattle.text_svg.specs.Lanes.{tick_at, mark_at, box_if};

use super::kind::Kind;
use super::kinds::kind_of;
use can_node_rules::Counters;
use sja_replay::BitEvent;
use std::alloc::AllocError;
use std::fmt::Write;

/// A line at this height over the bit that begins at `x`.
pub(crate) fn put_step(text: &mut String, x: u64, y: u64) -> Result<(), AllocError>
    ensures { OnOk result (string_bytes text.new ≡ string_bytes text.old ++ step_to x y) }
{
    if x == 0 {
        write!(text, "M0 {y}h8")
    } else {
        write!(text, "V{y}h8")
    }
}

/// The mark of a bit in the ruler, where it has one, with a line through the lanes.
pub(crate) fn put_mark(text: &mut String, height: u64, x: u64, bit: u32) -> Result<(), AllocError>
    ensures { OnOk result (string_bytes text.new ≡ string_bytes text.old ++ mark_at height x bit) }
{
    if bit % 10 == 0 {
        put_tick(text, height, x, bit)
    } else {
        Ok(())
    }
}

/// The line and the number of a bit that has a mark.
fn put_tick(text: &mut String, height: u64, x: u64, bit: u32) -> Result<(), AllocError>
    ensures { OnOk result (string_bytes text.new ≡ string_bytes text.old ++ tick_at height x bit) }
{
    writeln!(
        text,
        "<path class='tick' d='M{x} 18v{height}'/><text class='number' x='{x}' y='12'>{bit}</text>"
    )
}

/// The box of a bit, if there is one.
pub(crate) fn put_box_if(
    text: &mut String,
    x: u64,
    after_five: bool,
    bit: &Option<BitEvent>,
) -> Result<(), AllocError>
    ensures { OnOk result (string_bytes text.new ≡ string_bytes text.old ++ box_if x after_five bit.now) }
{
    match bit {
        Some(bit) => put_box(text, x, kind_of(after_five, bit), bit),
        None => Ok(()),
    }
}

/// The box of a bit, which was this.
#[tactic(auto, using(text_report::proofs::WrittenLines::Written::two_texts))]
fn put_box(text: &mut String, x: u64, kind: Kind, bit: &BitEvent) -> Result<(), AllocError>
    ensures { OnOk result (string_bytes text.new ≡ string_bytes text.old ++ box_of x kind bit.now) }
{
    put_box_front(text, x, kind, bit.bit)?;
    put_box_end(text, bit.after.counters)?;
    Ok(())
}

/// The box, and which bit it is and what it was.
fn put_box_front(text: &mut String, x: u64, kind: Kind, bit: u32) -> Result<(), AllocError>
    ensures { OnOk result (string_bytes text.new ≡ string_bytes text.old ++ box_front x kind bit) }
{
    let class = kind.class();
    let name = kind.name();
    write!(
        text,
        "<rect class='{class}' x='{x}' width='8' height='24'><title>bit {bit}: {name}"
    )
}

/// The error counters after it, and the end of the box.
fn put_box_end(text: &mut String, counters: Counters) -> Result<(), AllocError>
    ensures { OnOk result (string_bytes text.new ≡ string_bytes text.old ++ box_end counters) }
{
    let tec = counters.tec;
    let rec = counters.rec;
    writeln!(text, "; TEC {tec}, REC {rec}</title></rect>")
}
