//! What a node knows of itself beside the piece under way.
use can_levels::Level;
use can_node_rules::{Config, Counters, FlagKind, Request, Role};

/// The context of a node's next bit: configuration, request, role, error counters and flag. How far the piece under way
/// has come is the [`Stage`](super::stage::Stage)'s.
#[derive(Debug, Drop)]
pub(crate) struct Context {
    pub(crate) listen: bool,
    pub(crate) self_test: bool,
    /// The request, and whether it was aborted in progress.
    pub(crate) held: Option<Request>,
    pub(crate) aborted: bool,
    pub(crate) role: Role,
    pub(crate) counters: Counters,
    /// The flag that is due, or that came last.
    pub(crate) flag: FlagKind,
    /// A passive transmitter's step for a missing acknowledgement is owed.
    pub(crate) ack_step_owed: bool,
}

impl Context {
    ghost use Rattle.std.specs.Prelude.{◌≡◌, ◌||◌, is_some, Some, None, false};
    ghost use Rattle.can_node_rules.specs.Context.{fresh, is_transmitter, owes_suspension, flag_level};
    ghost use Rattle.can_node_rules.specs.Pieces.{sent_at};
    ghost use Rattle.can_node_rules.specs.Pieces.Place.{AtIdle};
    ghost use Rattle.can_node_rules.specs.Effects.{with_start, with_stop, role_after_sof};
    ghost use Rattle.can_node_rules.specs.Counting.{drop_failed, first_bit};
    ghost use Rattle.can_node.specs.Standing.{context_of};

    /// Before anything happened.
    pub(crate) fn new() -> Context
        ensures { context_of result ≡ fresh }
    {
        Context {
            listen: false,
            self_test: false,
            held: None,
            aborted: false,
            role: Role::Receiver,
            counters: Counters::zero(),
            flag: FlagKind::ActiveError,
            ack_step_owed: false,
        }
    }

    /// Whether it sends the frame that is on the bus, or sent the one that came last.
    pub(crate) fn is_transmitter(&self) -> bool
        ensures { result ≡ is_transmitter self.now.role }
    {
        match self.role {
            Role::Transmitter => true,
            Role::Receiver => false,
        }
    }

    /// Suspend transmission is owed: an error passive transmitter waits eight bits more after intermission.
    pub(crate) fn owes_suspension(&self) -> bool
        ensures { result ≡ owes_suspension (context_of self.now) }
    {
        self.is_transmitter() && self.is_passive()
    }

    /// Whether it starts its own frame where the bus is idle.
    pub(crate) fn sends(&self) -> bool
        ensures { result ≡ is_some (sent_at (context_of self.now) AtIdle) }
    {
        !self.listen && self.held.is_some()
    }

    /// The first bit where the bus is idle: the holder of a request is transmitter from its SOF on.
    pub(crate) fn begin_own_frame(&mut self)
        ensures { context_of self.new ≡ first_bit (sent_at (context_of self.old) AtIdle) (context_of self.old) }
    {
        if self.sends() {
            self.role = Role::Transmitter;
        }
    }

    /// What the node drives in its flag.
    pub(crate) fn flag_level(&self) -> Level
        ensures { result ≡ flag_level (context_of self.now) }
    {
        if self.listen {
            return Level::Recessive;
        }
        match self.flag {
            FlagKind::ActiveError | FlagKind::Overload => Level::Dominant,
            FlagKind::PassiveError => Level::Recessive,
        }
    }

    /// Takes the configuration; while bus-off stands the waiting begins anew, unless the node only listens.
    pub(crate) fn start(&mut self, config: &Config)
        ensures { context_of self.new ≡ with_start config.now (context_of self.old) }
    {
        self.listen = config.listen;
        self.self_test = config.self_test;
        self.take_tec(config.tec);
        self.take_rec(config.rec);
        self.recount();
    }

    /// Drops the request.
    pub(crate) fn stop(&mut self)
        ensures { context_of self.new ≡ with_stop (context_of self.old) }
    {
        self.held = None;
        self.aborted = false;
        self.ack_step_owed = false;
    }

    /// Drops a request that is tried once, or was aborted in progress, where it fails or loses.
    pub(crate) fn drop_failed(&mut self)
        ensures { context_of self.new ≡ drop_failed self.old.held (context_of self.old) }
    {
        if self.drops() {
            self.held = None;
            self.aborted = false;
        }
    }

    /// Whether the request is dropped where it fails or loses: it is tried once, or was aborted in progress.
    pub(crate) fn drops(&self) -> bool
        ensures none { self.now.held ≡ None → result ≡ false }
        ensures some { (request : Request) → self.now.held ≡ Some request
            → result ≡ (request.single_shot || self.now.aborted) }
    {
        match &self.held {
            None => false,
            Some(request) => request.single_shot || self.aborted,
        }
    }

    /// The role where SOF came in interframe space: the holder of a request transmits, unless it owes suspend
    /// transmission or only listens.
    pub(crate) fn role_after_sof(&self) -> Role
        ensures { result ≡ role_after_sof (context_of self.now) }
    {
        if self.held.is_some() && !(self.listen || self.owes_suspension()) {
            Role::Transmitter
        } else {
            Role::Receiver
        }
    }
}
