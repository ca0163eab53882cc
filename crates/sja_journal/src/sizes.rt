//! How many activations a node has, how many items a link holds, and the bytes of the receive FIFO. No other code has
//! these as numbers.

ghost use Rattle.std.specs.Prelude.{◌≡◌};
ghost use Rattle.sja_journal.specs.Sizes.{most_activations};

/// How many activations a node has at most in a run of version 1 or 2 (this project's own rule).
const FEW_ACTIVATIONS: u64 = 8;

/// How many a node has at most in a run of version 3 (this project's own rule).
pub const ACTIVATIONS: u64 = 64;

/// The first version in which a node has as many (this project's own rule).
const MANY_FROM: u8 = 3;

/// The version that a session without an end has for its ports and drivers (this project's own rule): the rules are
/// those of version 3, but starts aren't used up. No plan is of this version.
pub const WITHOUT_END: u8 = 4;

/// How many activations a node has at most in a session without an end, more than any time is long enough for (this
/// project's own rule).
const ENDLESS_ACTIVATIONS: u64 = 1 << 56;

/// How many items lie on a link downward at most: 21 messages, since no more of three bytes fit into the receive FIFO,
/// and bus-off (this project's own rule). A driver holds as many messages.
pub const ITEMS_DOWN: usize = 22;

/// How many items lie on a link upward at most: a start, a credit for each of 21 messages, a request and a stop (this
/// project's own rule).
pub const ITEMS_UP: usize = 24;

/// The bytes of the receive FIFO (SJA1000 data sheet, 6.4.14).
pub const RECEIVE_FIFO: u8 = 64;

/// How many activations a node has at most in a run of this version: 8 in versions 1 and 2, 64 in version 3, and in a
/// session without an end, which is [`WITHOUT_END`], more than can be used up.
pub fn most_activations(version: u8) -> u64
    ensures { result ≡ most_activations version }
{
    if version < MANY_FROM {
        FEW_ACTIVATIONS
    } else if version < WITHOUT_END {
        ACTIVATIONS
    } else {
        ENDLESS_ACTIVATIONS
    }
}
