//! Nodes that read one frame together: one of them sends it, and the others receive it, send what is the same so far,
//! or are in reset.

ghost use Rattle.std.specs.Prelude.{◌≡◌, ◌*◌, true, false};
ghost use Rattle.can_bits.specs.Sending.{TakesInside};
ghost use Rattle.can_node.specs.Together.{NotBoth};

use super::node::Node;
use super::stage::Stage;
use can_bits::Shift;
use can_levels::Level;
use can_node_rules::Role;

impl Node {
    ghost use Rattle.std.specs.Prelude.{◌≡◌, ◌<◌, ◌≤◌, ◌+◌, ◌⊎◌, ℕ, true, false, List};
    ghost use Rattle.std.specs.Prelude.{length, take, drop};
    ghost use Rattle.can_levels.specs.declared.level.Level.{Level as Bus};
    ghost use Rattle.can_bits.specs.Sending.{BothHave, place_of};
    ghost use Rattle.can_bits.specs.Shifts.{StandsFor};
    ghost use Rattle.can_levels.specs.Streaming.{IsRightInside};
    ghost use Rattle.can_node.specs.Together.{is_sending, kept_level, reader_of, reading_as, HasReadAs};
    ghost use Rattle.can_node.specs.Together.{GoesWith, IsApart, SendsAlike, SendsBits, body_of, following, sending_as};
    ghost use Rattle.can_node.specs.Together.{NotBoth, TakesBits};
    ghost use Rattle.can_node.specs.declared.node.Node.{Node as Sender};

    /// Whether this node is in a frame, and sends it.
    #[inline(always)]
    pub fn is_sending(&self) -> bool
        ensures { result ≡ is_sending self.now }
    {
        match self.stage {
            Stage::InFrame => self.context.is_transmitter(),
            _ => false,
        }
    }

    /// The reader of the frame that is on the bus, or came last.
    #[inline(always)]
    pub fn reader(&self) -> Shift
        ensures { result ≡ reader_of self.now }
    {
        self.shift
    }

    /// Whether this node receives the stuffed part of a frame, drives recessive, and has read just what this reader
    /// has.
    #[inline(always)]
    pub fn has_read_as(&self, reader: &Shift) -> bool
        ensures yes { result ≡ true → HasReadAs self.now reader.now }
        ensures only { (l : List Bus) (level : Bus) → StandsFor (reader_of self.now) l → IsRightInside l level →
            HasReadAs self.now reader.now → result ≡ true }
    {
        match self.stage {
            Stage::InFrame => match self.context.role {
                Role::Transmitter => false,
                Role::Receiver => self.next.is_recessive() && self.shift.is_same_inside(reader),
            },
            _ => false,
        }
    }

    /// For how many bits of the stuffed part this node goes on with one that sends, both having read just the same. It
    /// is 255, and so more than any stuffed part has, where the node receives that frame and drives recessive, and in
    /// reset. Where it sends too, it is at how many places from the next one on both bodies are the same; stuff bits
    /// may come between. Else it is 0.
    #[inline(always)]
    pub fn goes_with(&self, sender: &Node) -> u8
        ensures goes { 0 < result → GoesWith sender.now result self.now }
        ensures receives { (l : List Bus) (level : Bus) → StandsFor (reader_of self.now) l → IsRightInside l level →
            HasReadAs self.now (reader_of sender.now) → result ≡ 255 }
        ensures sends { (l : List Bus) (level : Bus) (n : ℕ) → StandsFor (reader_of self.now) l → IsRightInside l level
            → SendsAlike sender.now n self.now
            → BothHave (place_of (reader_of sender.now) + n) (body_of sender.now) (body_of self.now) → n ≤ result }
        ensures rests { IsApart self.now → result ≡ 255 }
        ensures within { is_sending self.now ≡ true → 0 < result
            → BothHave (place_of (reader_of sender.now) + result) (body_of sender.now) (body_of self.now) }
    {
        if self.has_read_as(&sender.shift) {
            return u8::MAX;
        }
        if !self.is_sending() {
            return self.goes_with_any();
        }
        if self.next == sender.next && self.shift.is_same_inside(&sender.shift) {
            sender.shift.agreement(&sender.body, &self.body)
        } else {
            0
        }
    }

    /// For how many bits this node goes on with any other one: 255 in reset, where it drives recessive, and else 0.
    #[inline(always)]
    fn goes_with_any(&self) -> u8
        ensures apart { 0 < result → IsApart self.now }
        ensures most { IsApart self.now → result ≡ 255 }
    {
        match self.stage {
            Stage::InReset => { if self.next.is_recessive() { u8::MAX } else { 0 } }
            _ => 0,
        }
    }

    /// Goes on where this reader is, which took for both what came since: some bits, of which the node was a receiver,
    /// or a sender that sent the same, or in which it was in reset.
    #[inline(always)]
    pub fn follow(&mut self, reader: &Shift)
        ensures { self.new ≡ following self.old reader.now }
    {
        if self.is_sending() {
            self.next = reader.next_of(&self.body);
        }
        self.shift = *reader;
    }

    /// Sends the next bits of the stuffed part, past SOF, each of which is seen as it is driven: as many as there is
    /// room for their levels, or up to the end of that part. Answers how many. Another sender that goes on with this
    /// one for so many bits, where these are some, sends the same.
    #[inline(never)]
    pub fn send_inside(&mut self, levels: &mut [Level]) -> usize
        ensures few { result ≤ length levels.old }
        ensures count { length levels.new ≡ length levels.old }
        ensures rest { drop result levels.new ≡ drop result levels.old }
        ensures sends { SendsBits self.old (take result levels.new) self.new }
        ensures alike { (n : ℕ) (other : Sender) → 0 < result → result ≤ n → SendsAlike self.old n other
            → SendsBits other (take result levels.new) (sending_as other (reader_of self.new)) }
        ensures longest { (result ≡ length levels.old) ⊎ (is_sending self.new ≡ false)
            ⊎ ((l : List Bus) → StandsFor (reader_of self.new) l → ¬ IsRightInside l (kept_level self.new)) }
    {
        if !self.is_sending() {
            return 0;
        }
        let (mut shift, mut next) = (self.shift, self.next);
        let mut count = 0;
        while count < levels.len() && shift.take_inside(next) {
            levels[count] = next;
            count = shift.send_along(&self.body, levels, count + 1);
            next = shift.next_of(&self.body);
        }
        self.shift = shift;
        self.next = next;
        count
    }
    /// Sends the next bits of the stuffed part as [`send_inside`](Node::send_inside) does, as long as this other reader
    /// takes each of them too: that of a receiver that has read something else. Answers how many.
    #[inline(never)]
    pub fn send_beside(&mut self, beside: &mut Shift, levels: &mut [Level]) -> usize
        ensures few { result ≤ length levels.old }
        ensures count { length levels.new ≡ length levels.old }
        ensures rest { drop result levels.new ≡ drop result levels.old }
        ensures sends { SendsBits self.old (take result levels.new) self.new }
        ensures alike { (n : ℕ) (other : Sender) → 0 < result → result ≤ n → SendsAlike self.old n other
            → SendsBits other (take result levels.new) (sending_as other (reader_of self.new)) }
        ensures takes { TakesBits beside.old (take result levels.new) beside.new }
        ensures longest { (result ≡ length levels.old) ⊎ (is_sending self.new ≡ false)
            ⊎ NotBoth (reader_of self.new) beside.new (kept_level self.new) }
    {
        if !self.is_sending() {
            return 0;
        }
        let (mut shift, mut next) = (self.shift, self.next);
        let mut count = 0;
        while count < levels.len() && take_both(&mut shift, beside, next) {
            levels[count] = next;
            next = shift.next_of(&self.body);
            count += 1;
        }
        self.shift = shift;
        self.next = next;
        count
    }
}

/// Takes a level of the stuffed part with both readers. Answers whether each took it; else both are what they were.
#[inline(always)]
fn take_both(one: &mut Shift, other: &mut Shift, level: Level) -> bool
    ensures one { result ≡ true → TakesInside one.old level one.new }
    ensures other { result ≡ true → TakesInside other.old level other.new }
    ensures same { result ≡ false → (one.new ≡ one.old) × (other.new ≡ other.old) × NotBoth one.old other.old level }
{
    let before = *other;
    if !other.take_inside(level) {
        return false;
    }
    if !one.take_inside(level) {
        *other = before;
        return false;
    }
    true
}
