//! The declarations at the beginning of a wave.

ghost use Rattle.std.specs.Prelude.{◌≡◌, ◌∷◌, [], ◌++◌, List, length, map, codes, decimal, string_bytes, OnOk};
ghost use Rattle.lemmas.specs.Gathering.{gathered};
ghost use Rattle.sja_log.specs.Log.{NodeValue};
ghost use Rattle.text_report.specs.ReportLines.{numbered};
ghost use Rattle.text_wave.specs.AllSignals.{Signal, told_signals};
ghost use Rattle.text_wave.specs.Stories.{NodeStory};
ghost use Rattle.text_wave.specs.Wires.{Wire, node_wires};
ghost use Rattle.text_wave.specs.WaveText.{declarations, node_scope, scope_line, var_line};

use sja_log::NodeRun;
use std::alloc::AllocError;
use std::fmt::Write;

/// The unit of time, and each signal.
pub(crate) fn put_declarations(text: &mut String, nodes: &[NodeRun]) -> Result<(), AllocError>
    ensures { (stories : List NodeStory) → length stories ≡ length nodes.now →
        OnOk result (string_bytes text.new ≡ string_bytes text.old ++ declarations stories) }
{
    writeln!(text, "$timescale 100 ns $end")?;
    writeln!(text, "$scope module can $end")?;
    writeln!(text, "$var wire 1 w bus $end")?;
    put_scopes(text, nodes)?;
    writeln!(text, "$upscope $end")?;
    writeln!(text, "$enddefinitions $end")?;
    Ok(())
}

/// A scope for each node.
fn put_scopes(text: &mut String, nodes: &[NodeRun]) -> Result<(), AllocError>
    ensures { (bus : Wire) (stories : List NodeStory) → length stories ≡ length nodes.now →
        OnOk result (string_bytes text.new ≡ string_bytes text.old ++ numbered (node_scope bus) 0 stories) }
{
    for number in 0..nodes.len() {
        put_scope(text, number)?;
    }
    Ok(())
}

/// The scope of a node, with its signals.
fn put_scope(text: &mut String, number: usize) -> Result<(), AllocError>
    ensures { (bus : Wire) (story : NodeStory) →
        OnOk result (string_bytes text.new ≡ string_bytes text.old ++ node_scope bus number story) }
{
    put_opening(text, number)?;
    put_levels(text, number)?;
    put_numbers(text, number)?;
    writeln!(text, "$upscope $end")?;
    Ok(())
}

/// Of what its journal says.
fn put_levels(text: &mut String, number: usize) -> Result<(), AllocError>
    ensures { (node : NodeValue) → OnOk result (string_bytes text.new ≡ string_bytes text.old
        ++ gathered var_line (map Signal.wire (node_wires number node))) }
{
    put_wire(text, "driven", "d", number)?;
    put_wire(text, "seen", "s", number)?;
    put_wire(text, "active", "a", number)?;
    put_wire(text, "off", "f", number)?;
    put_wire(text, "stored", "m", number)?;
    put_wire(text, "overrun", "o", number)?;
    Ok(())
}

/// Of what its bits brought, and whether it is struck.
fn put_numbers(text: &mut String, number: usize) -> Result<(), AllocError>
    ensures { (bus : Wire) (story : NodeStory) → OnOk result (string_bytes text.new ≡ string_bytes text.old
        ++ gathered var_line (told_signals bus number story)) }
{
    put_number(text, "tec", "t", number)?;
    put_number(text, "rec", "r", number)?;
    put_wire(text, "struck", "x", number)?;
    put_number(text, "phase", "p", number)?;
    Ok(())
}

/// The line that opens the scope of a node.
fn put_opening(text: &mut String, number: usize) -> Result<(), AllocError>
    ensures { OnOk result (string_bytes text.new ≡ string_bytes text.old
        ++ scope_line (codes "node" ++ decimal number)) }
{
    writeln!(text, "$scope module node{number} $end")
}

/// The declaration of a level of a node.
fn put_wire(text: &mut String, name: &str, letter: &str, number: usize) -> Result<(), AllocError>
    ensures { OnOk result (string_bytes text.new ≡ string_bytes text.old ++ (codes "$var wire 1 "
        ++ (letter.now ++ (decimal number ++ (32 ∷ (name.now ++ (codes " $end" ++ 10 ∷ []))))))) }
{
    writeln!(text, "$var wire 1 {letter}{number} {name} $end")
}

/// The declaration of a number of a node.
fn put_number(text: &mut String, name: &str, letter: &str, number: usize) -> Result<(), AllocError>
    ensures { OnOk result (string_bytes text.new ≡ string_bytes text.old ++ (codes "$var real 64 "
        ++ (letter.now ++ (decimal number ++ (32 ∷ (name.now ++ (codes " $end" ++ 10 ∷ []))))))) }
{
    writeln!(text, "$var real 64 {letter}{number} {name} $end")
}
