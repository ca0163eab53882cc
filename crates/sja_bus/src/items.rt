//! What a controller takes from its driver before it drives a bit: items, one link after the other.

use super::activity::Activity;
use super::board::Board;
use super::bus_node::BusNode;
use super::pending_event::PendingEvent;
use can_node_rules::{Config, Request};
use sja_journal::{BusFault, Entry, Up};
use sja_link::{BadCredit, BusEnd, BusLedger, LinkId};

impl BusNode {
    ghost use Rattle.std.specs.Prelude.{◌≡◌, ◌<◌, [], ◌∷◌, ◌++◌, true, OnOk};
    ghost use Rattle.std.specs.Prelude.{IfErr, ◌⊎◌, ◌≤◌, ℕ, suc, Ok, false};
    ghost use Rattle.sja_link.specs.BusLedgers.{link_of};
    ghost use Rattle.sja_journal.specs.Written.{Fits};
    ghost use Rattle.sja_journal.specs.Opening.{BeginsWithin};
    ghost use Rattle.sja_journal.specs.declared.entry.Entry.TheVariants.{Up as Item};
    ghost use Rattle.sja_link.specs.Moving.{Goes, Moves};
    ghost use Rattle.sja_bus_rules.specs.Opens.{Opens};
    ghost use Rattle.sja_journal.specs.BitEntries.{MayHaveItems};
    ghost use Rattle.sja_bus_rules.specs.Reasons.{RefusesItem};
    ghost use Rattle.sja_bus.specs.Inside.BusNodes.{IsBusNode, IsReady, IsOwed};
    ghost use Rattle.sja_bus.specs.Inside.AtLinks.{HasEnd, KeepsEnd};
    ghost use Rattle.sja_bus.specs.Inside.Taking.{FullForAbort, Takes, Refuses, RefusesHere};
    ghost use Rattle.sja_bus.specs.Inside.Turning.{TakesUntold, OpensUntold};
    ghost use Rattle.sja_journal.specs.declared.up.Up.TheVariants.{Start, Credit, Send, Stop};
    ghost use Rattle.sja_journal.specs.declared.up.Up.{Up as Given};
    ghost use Rattle.sja_journal.specs.Places.{past, place_of};
    ghost use Rattle.sja_bus.specs.declared.pending_event.PendingEvent.TheVariants.{Changed};
    ghost use Rattle.sja_journal.specs.OutOfOrder.{IsOutOfOrder};

    /// Takes all that the links show, and then applies an abort that stands.
    #[inline(always)]
    pub(crate) fn open_bit<E: BusEnd, B: Board>(
        &mut self,
        end: &mut E,
        board: &B,
    ) -> Result<(), BusFault>
        requires at { HasEnd E.node self.old end.old }
        requires port { (link_of self.old.ledger).node < B.ports board.now }
        ensures stays { KeepsEnd E.same self.old self.new end.old end.new }
        ensures ready { OnOk result (IsReady self.new) }
        ensures goes { OnOk result
            (Goes E.same E.stands end.old end.new self.old.journal.entries self.new.journal.entries) }
        ensures opens { OnOk result (Opens (B.orders_are board.now (link_of self.old.ledger).node)
            self.old.journal.entries self.new.journal.entries) }
        ensures untold { OnOk result (OpensUntold self.old self.new) }
        ensures facts { OnOk result (B.facts board.now (link_of self.old.ledger).node) }
        ensures within { OnOk result
            (BeginsWithin (E.links end.old) self.old.journal.entries self.new.journal.entries) }
        ensures dry { OnOk result (E.dry end.new (suc self.new.ended)) }
        ensures stops { IfErr result (λ f. RefusesItem E.BusEnd self.old.journal.room self.old.journal.entries
            self.new.journal.entries end.old end.new (link_of self.old.ledger).node f
            ⊎ FullForAbort E.BusEnd (B.orders_are board.now (link_of self.old.ledger).node) self.old self.new
            end.old end.new f) }
    {
        self.gather(end)?;
        let ordered = board.orders(self.number()).abort;
        if ordered { self.abort() } else { Ok(()) }
    }

    /// Takes all that the links show, one link after the other.
    #[inline(always)]
    pub(crate) fn gather<E: BusEnd>(&mut self, end: &mut E) -> Result<(), BusFault>
        requires at { HasEnd E.node self.old end.old }
        ensures stays { KeepsEnd E.same self.old self.new end.old end.new }
        ensures ready { OnOk result (IsReady self.new) }
        ensures goes { OnOk result
            (Goes E.same E.stands end.old end.new self.old.journal.entries self.new.journal.entries) }
        ensures items { OnOk result (MayHaveItems self.old.journal.entries self.new.journal.entries) }
        ensures untold { OnOk result (TakesUntold self.old self.new) }
        ensures within { OnOk result
            (BeginsWithin (E.links end.old) self.old.journal.entries self.new.journal.entries) }
        ensures dry { OnOk result (E.dry end.new (suc self.new.ended)) }
        ensures refused { IfErr result (λ f. RefusesItem E.BusEnd self.old.journal.room self.old.journal.entries
            self.new.journal.entries end.old end.new (link_of self.old.ledger).node f) }
    {
        loop {
            if !self.take(end)? {
                return Ok(());
            }
        }
    }

    /// Takes one item from the link that is read. False where it shows none.
    #[inline(always)]
    fn take<E: BusEnd>(&mut self, end: &mut E) -> Result<bool, BusFault>
        requires at { HasEnd E.node self.old end.old }
        ensures same { E.same end.old end.new }
        ensures node { (link_of self.new.ledger).node ≡ (link_of self.old.ledger).node }
        ensures room { self.new.journal.room ≡ self.old.journal.room }
        ensures ready { OnOk result (IsReady self.new) }
        ensures moves { OnOk result
            (Moves E.stands end.old end.new self.old.journal.entries self.new.journal.entries (suc self.old.ended)) }
        ensures some { result ≡ Ok true → (item : Given)
            × (self.new.journal.entries ≡ self.old.journal.entries ++ Item item ∷ [])
            × Fits self.old.journal.room (self.old.journal.entries ++ Item item ∷ [])
            × ((past (place_of self.old.journal.entries) (Item item)).activation ≡ suc self.old.ended)
            × (IsOutOfOrder self.old.journal.entries item → ⊥) }
        ensures untold { result ≡ Ok true → self.new.untold ≡ Changed }
        ensures none { result ≡ Ok false → E.dry end.new (suc self.old.ended) × (self.new ≡ self.old) }
        ensures within { OnOk result
            (BeginsWithin (E.links end.old) self.old.journal.entries self.new.journal.entries) }
        ensures refused { IfErr result (λ f. RefusesHere E.BusEnd end.old end.new self.old self.new f) }
    {
        match self.ledger.collect(end) {
            Ok(None) => Ok(false),
            Ok(Some(item)) => {
                self.note(item)?;
                self.untold = PendingEvent::Changed;
                self.drives = self.node.drive();
                Ok(true)
            }
            Err(BadCredit(bytes)) => Err(BusFault::BadCredit(self.number(), bytes)),
        }
    }

    /// An item was taken.
    #[inline(always)]
    fn note(&mut self, item: Up) -> Result<(), BusFault>
        requires owed { IsOwed self.old (Item item) }
        requires bus_node { IsBusNode self.old }
        requires some { (bytes : ℕ) → item ≡ Credit bytes → (3 ≤ bytes) × (bytes ≤ 13) }
        ensures node { (link_of self.new.ledger).node ≡ (link_of self.old.ledger).node }
        ensures room { self.new.journal.room ≡ self.old.journal.room }
        ensures takes { OnOk result (Takes self.old self.new item) }
        ensures refused { IfErr result (λ f. Refuses self.old self.new item f) }
    {
        match item {
            Up::Start(config) => self.begin(config),
            Up::Credit(bytes) => self.credited(bytes),
            Up::Send(request) => self.ask(request),
            Up::Stop => self.end(),
        }
    }

    /// A start was taken.
    fn begin(&mut self, config: Config) -> Result<(), BusFault>
        requires owed { IsOwed self.old (Item (Start config)) }
        requires bus_node { IsBusNode self.old }
        ensures node { (link_of self.new.ledger).node ≡ (link_of self.old.ledger).node }
        ensures room { self.new.journal.room ≡ self.old.journal.room }
        ensures takes { OnOk result (Takes self.old self.new (Start config)) }
        ensures refused { IfErr result (λ f. Refuses self.old self.new (Start config) f) }
    {
        let Activity::Between = self.activity else {
            return Err(BusFault::BadOrder(self.number()));
        };
        self.node.start(config.copy());
        self.activity = Activity::Running(config.filter);
        self.enter(Entry::Up(Up::Start(config)))
    }

    /// A credit was taken. Between two activations none can be: all 64 bytes are free there.
    fn credited(&mut self, bytes: u8) -> Result<(), BusFault>
        requires owed { IsOwed self.old (Item (Credit bytes)) }
        requires bus_node { IsBusNode self.old }
        requires some { (3 ≤ bytes) × (bytes ≤ 13) }
        ensures node { (link_of self.new.ledger).node ≡ (link_of self.old.ledger).node }
        ensures room { self.new.journal.room ≡ self.old.journal.room }
        ensures takes { OnOk result (Takes self.old self.new (Credit bytes)) }
        ensures refused { IfErr result (λ f. Refuses self.old self.new (Credit bytes) f) }
    {
        self.enter(Entry::Up(Up::Credit(bytes)))
    }

    /// A request was taken.
    fn ask(&mut self, request: Request) -> Result<(), BusFault>
        requires owed { IsOwed self.old (Item (Send request)) }
        requires bus_node { IsBusNode self.old }
        ensures node { (link_of self.new.ledger).node ≡ (link_of self.old.ledger).node }
        ensures room { self.new.journal.room ≡ self.old.journal.room }
        ensures takes { OnOk result (Takes self.old self.new (Send request)) }
        ensures refused { IfErr result (λ f. Refuses self.old self.new (Send request) f) }
    {
        match self.activity {
            Activity::Running(_) => match self.node.request(request.copy()) {
                Ok(()) => self.enter(Entry::Up(Up::Send(request))),
                Err(_) => Err(BusFault::BadOrder(self.number())),
            },
            Activity::Off => {
                self.activity = Activity::OffAndAsked;
                self.enter(Entry::Up(Up::Send(request)))
            }
            _ => Err(BusFault::BadOrder(self.number())),
        }
    }

    /// A stop was taken: the next link is read from now on.
    fn end(&mut self) -> Result<(), BusFault>
        requires owed { IsOwed self.old (Item Stop) }
        requires bus_node { IsBusNode self.old }
        ensures node { (link_of self.new.ledger).node ≡ (link_of self.old.ledger).node }
        ensures room { self.new.journal.room ≡ self.old.journal.room }
        ensures takes { OnOk result (Takes self.old self.new Stop) }
        ensures refused { IfErr result (λ f. Refuses self.old self.new Stop f) }
    {
        if let Activity::Between = self.activity {
            return Err(BusFault::BadOrder(self.number()));
        }
        self.node.stop();
        self.activity = Activity::Between;
        self.ended += 1;
        self.ledger = BusLedger::new(LinkId {
            node: self.ledger.id().node,
            activation: self.ended + 1,
        });
        self.enter(Entry::Up(Up::Stop))
    }
}
