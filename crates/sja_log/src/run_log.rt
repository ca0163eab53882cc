//! [`RunLog`]: what a run did.

ghost use Rattle.std.specs.Prelude.{◌≡◌};

use super::end::End;
use super::node_run::NodeRun;
use std::marker::Model;

/// What a run did (this project's own rule). Contracts see it as these four values.
#[derive(Debug, Drop)]
pub struct RunLog {
    version: u8,
    bits: u32,
    end: End,
    nodes: Vec<NodeRun>,
}

impl Model for RunLog {
    ghost use Rattle.sja_log.specs.Log.{RunValue};

    ghost Value = { RunValue };

    ghost view = { λ l. record { version = l.version; bits = l.bits; end = l.end; nodes = l.nodes.items } };
}

impl RunLog {
    ghost use Rattle.std.specs.Prelude.{◌≡◌};

    /// The log of a run: the version of its plan, how many bits were run, why it ended, and its nodes, in order.
    pub fn of(version: u8, bits: u32, end: End, nodes: Vec<NodeRun>) -> RunLog
        ensures { result ≡ record { version = version; bits = bits; end = end; nodes = nodes.items } }
    {
        RunLog {
            version,
            bits,
            end,
            nodes,
        }
    }

    /// The version of the plan.
    pub fn version(&self) -> u8
        ensures { result ≡ self.now.version }
    {
        self.version
    }

    /// How many bits were run.
    pub fn bits(&self) -> u32
        ensures { result ≡ self.now.bits }
    {
        self.bits
    }

    /// Why the run ended.
    pub fn end(&self) -> End
        ensures { result ≡ self.now.end }
    {
        self.end
    }

    /// What became of each node.
    pub fn nodes(&self) -> &[NodeRun]
        ensures { result.now ≡ self.now.nodes }
    {
        self.nodes.as_slice()
    }
}
