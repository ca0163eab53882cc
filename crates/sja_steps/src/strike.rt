//! Strikes: levels that a node sees otherwise.

/// One node sees the other level at chosen bits (this project's own rule): at `bit`, and then after every so many bits
/// once more, `times` times in all.
#[derive(Clone, Copy, Debug, PartialEq, Eq)]
pub struct Strike {
    /// The node, counted from 0.
    pub node: u8,
    /// The first bit that is struck, counted from 0.
    pub bit: u64,
    /// How many bits later the next one is struck.
    pub every: u32,
    /// How many bits are struck.
    pub times: u32,
}

impl Strike {
    ghost use Rattle.std.specs.Prelude.{◌↔◌, IsTrue};
    ghost use Rattle.sja_steps.specs.Striking.{IsRepeated, Hits};

    /// Whether it hits this node in this bit.
    pub fn hits(&self, bit: u64, node: u8) -> bool
        ensures { IsTrue result ↔ Hits self.now bit node }
    {
        self.node == node && bit >= self.bit && self.is_repeated(bit - self.bit)
    }

    /// Whether it comes again so many bits after its first one.
    fn is_repeated(&self, later: u64) -> bool
        ensures { IsTrue result ↔ IsRepeated self.now later }
    {
        if self.every == 0 {
            return later == 0 && self.times > 0;
        }
        let every = self.every as u64;
        later % every == 0 && later / every < (self.times as u64)
    }
}
