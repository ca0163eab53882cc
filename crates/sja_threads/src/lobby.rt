//! [`Lobby`]: where drivers that wait long, and the bus while nothing is due, say so.

use sja_steps::MOST_NODES;

/// How many nodes a bus has at most.
const NODES: usize = MOST_NODES as usize;

/// Stands for the rounds before its last try in vain of a driver that has ended, and of a node that isn't there.
const ENDED: u64 = u64::MAX;

/// Where drivers that wait long, and the bus while nothing is due, say so (this project's own rule). By it a wait that
/// nothing can end is known.
///
/// What a driver gave before it waits here is taken at the latest in the second round that the bus tells of from then
/// on. So where all drivers have ended or tried in vain after two such rounds, nothing is on its way any more: no bit
/// is due, and each further try is in vain too.
#[derive(Drop)]
pub(crate) struct Lobby {
    /// How many rounds the bus told of in which nothing was due.
    rounds: u64,
    /// How many these were as a driver last began to wait here, or ended.
    since: u64,
    /// Of each driver that waits here how many these were before its next try.
    next: [Option<u64>; NODES],
    /// Of each driver how many these were before its last try in vain here; 0 where it doesn't wait.
    last: [u64; NODES],
    /// Whether the bus tells of no more rounds.
    stopped: bool,
}

impl Lobby {
    /// Where the drivers of so many nodes wait.
    pub(crate) fn new(nodes: usize) -> Lobby {
        let mut last = [ENDED; NODES];
        for node in 0..NODES {
            if node < nodes {
                last[node] = 0;
            }
        }
        Lobby {
            rounds: 0,
            since: 0,
            next: [None; NODES],
            last,
            stopped: false,
        }
    }

    /// The bus made a round in which nothing was due.
    pub(crate) fn tell_round(&mut self) {
        self.rounds = self.rounds.saturating_add(1);
    }

    /// The bus makes no more rounds.
    pub(crate) fn stop(&mut self) {
        self.stopped = true;
    }

    /// A driver tried in vain; whether nothing can end its wait any more.
    pub(crate) fn tell_try(&mut self, node: u8) -> bool {
        let node = usize::from(node);
        if node >= NODES {
            return false;
        }
        match self.next[node] {
            Some(before) => self.last[node] = before,
            None => self.since = self.rounds,
        }
        self.next[node] = Some(self.rounds);
        self.stopped || self.all_in_vain()
    }

    /// A driver waits here no longer, since its step is done.
    pub(crate) fn leave(&mut self, node: u8) {
        let node = usize::from(node);
        if node < NODES {
            self.next[node] = None;
            self.last[node] = 0;
        }
    }

    /// A driver has ended.
    pub(crate) fn end(&mut self, node: u8) {
        let node = usize::from(node);
        if node < NODES {
            self.since = self.rounds;
            self.last[node] = ENDED;
        }
    }

    /// Whether all drivers have ended, or tried in vain after two rounds from when the last one began to wait or ended.
    fn all_in_vain(&self) -> bool {
        let enough = self.since.saturating_add(2);
        for node in 0..NODES {
            if self.last[node] < enough {
                return false;
            }
        }
        true
    }
}
