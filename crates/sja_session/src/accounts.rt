//! The headline of a session at any moment.

use super::session::Session;

impl Session {
    ghost use Rattle.std.specs.Prelude.{ℕ, List};
    ghost use Rattle.sja_serial.specs.Accounts.{AreAccountsNow};
    ghost use Rattle.sja_session.specs.Sessions.{IsSession};

    /// The headline, at this moment, with an end or without: of each activation that a node's driver has begun, what it
    /// released, followed by what it left unread, is, in order and each once, the frames that its controller validly
    /// received and its filter passed, less those marked overrun. A frame is marked overrun exactly where it is longer
    /// than 64 less the bytes stored and not yet collected back. Of an activation that goes on that is what was
    /// released so far, followed by what lies unread still.
    ///
    /// It does nothing: that holds of every session at every moment, and a caller who needs it calls it for its
    /// contract. The other clause is what each session keeps to, for which laws of sessions ask: it stands at some
    /// steps, within its room, with an end within the limits of a plan, without one by the rules of version 3.
    #[inline(always)]
    pub fn accounts(&self)
        ensures headline { AreAccountsNow self.now.run }
        ensures stands { (sizes : List ℕ) × (capacity : ℕ) × IsSession self.now sizes capacity }
    {
        self.run.accounts();
    }
}
