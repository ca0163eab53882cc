//! What is said of one bit of a node, event by event.

use std::alloc::{AllocError, Global};

/// The events of one bit of a node, one behind the other with `; ` between two.
#[derive(Debug, Drop)]
pub(crate) struct Remarks {
    pub(crate) text: String,
    /// Whether there is one.
    begun: bool,
}

impl Remarks {
    ghost use Rattle.std.specs.Prelude.{◌≡◌, ◌++◌, [], ◌∷◌, true, false, string_bytes, OnOk};
    ghost use Rattle.text_trace.specs.Events.{said_if};
    ghost use Rattle.text_trace.specs.Inside.Saying.{separator, Tells};

    /// None yet.
    pub(crate) fn new(alloc: Global) -> Remarks {
        Remarks {
            text: String::new(alloc),
            begun: false,
        }
    }

    /// None again.
    pub(crate) fn clear(&mut self)
        ensures text { string_bytes self.new.text ≡ [] }
        ensures begun { self.new.begun ≡ false }
    {
        self.text.clear();
        self.begun = false;
    }

    /// Whether there is one.
    pub(crate) fn begun(&self) -> bool
        ensures { result ≡ self.now.begun }
    {
        self.begun
    }

    /// Begins an event.
    pub(crate) fn begin(&mut self) -> Result<(), AllocError>
        ensures text { OnOk result (string_bytes self.new.text ≡ string_bytes self.old.text
            ++ separator self.old.begun) }
        ensures begun { OnOk result (self.new.begun ≡ true) }
    {
        if self.begun {
            self.text.push_str("; ")?;
        }
        self.begun = true;
        Ok(())
    }

    /// An event of these words.
    #[tactic(auto, using(crate::proofs::BitSaid::Sayings::tells_one))]
    pub(crate) fn say(&mut self, words: &str) -> Result<(), AllocError>
        ensures { OnOk result (Tells self.old self.new (words.now ∷ [])) }
    {
        self.begin()?;
        self.text.push_str(words)?;
        Ok(())
    }

    /// An event of these words where a test holds, and else none.
    #[tactic(auto, using(crate::proofs::BitSaid::Sayings::tells_none))]
    pub(crate) fn say_if(&mut self, test: bool, words: &str) -> Result<(), AllocError>
        ensures { OnOk result (Tells self.old self.new (said_if test words.now)) }
    {
        if !test {
            return Ok(());
        }
        self.say(words)
    }
}
