//! [`NodeRun`]: what became of one node.

use super::activation_log::ActivationLog;
use sja_journal::Journal;
use sja_steps::StepRecord;
use std::marker::Model;

/// What became of one node in a run (this project's own rule). Contracts see it as these five values, the journal as
/// the list of its entries.
#[derive(Debug, Drop)]
pub struct NodeRun {
    journal: Journal,
    txerr: u8,
    rxerr: u8,
    done: Vec<StepRecord>,
    activations: Vec<ActivationLog>,
}

impl Model for NodeRun {
    ghost use Rattle.sja_log.specs.Log.{NodeValue};

    ghost Value = { NodeValue };

    ghost view = { λ n. record {
      journal = n.journal.entries;
      txerr = n.txerr;
      rxerr = n.rxerr;
      done = n.done.items;
      activations = n.activations.items;
    } };
}

impl NodeRun {
    ghost use Rattle.std.specs.Prelude.{◌≡◌};

    /// What became of a node: its journal, its error counters as TXERR and RXERR read at the end, the steps that its
    /// driver did, and its activations, each in order. Beside `node_runs` of `sja_promises` tests alone
    /// call it.
    pub fn of(
        journal: Journal,
        txerr: u8,
        rxerr: u8,
        done: Vec<StepRecord>,
        activations: Vec<ActivationLog>,
    ) -> NodeRun
        ensures journal { result.journal ≡ journal.entries }
        ensures counters { (result.txerr ≡ txerr) × (result.rxerr ≡ rxerr) }
        ensures done { result.done ≡ done.items }
        ensures activations { result.activations ≡ activations.items }
    {
        NodeRun {
            journal,
            txerr,
            rxerr,
            done,
            activations,
        }
    }

    /// What the bus wrote of the node.
    pub fn journal(&self) -> &Journal
        ensures { result.now.entries ≡ self.now.journal }
    {
        &self.journal
    }

    /// The transmit error counter at the end, as TXERR reads: 0 to 255.
    pub fn txerr(&self) -> u8
        ensures { result ≡ self.now.txerr }
    {
        self.txerr
    }

    /// The receive error counter at the end, as RXERR reads: 0 to 255.
    pub fn rxerr(&self) -> u8
        ensures { result ≡ self.now.rxerr }
    {
        self.rxerr
    }

    /// The steps that the driver did, in order.
    pub fn done(&self) -> &[StepRecord]
        ensures { result.now ≡ self.now.done }
    {
        self.done.as_slice()
    }

    /// The activations that the driver started, in order.
    pub fn activations(&self) -> &[ActivationLog]
        ensures { result.now ≡ self.now.activations }
    {
        self.activations.as_slice()
    }
}
