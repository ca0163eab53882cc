//! The run of equal levels that ends a list, for the stuffing rule.

ghost use Rattle.std.specs.Prelude.{◌≡◌, ◌≢◌, ◌<◌, ◌+◌};

use can_levels::Level;

/// How many levels like the last one end a list, with a level more.
pub(crate) fn run_after(run: u8, last: Level, level: Level) -> u8
    ensures same { level ≡ last → run < 5 → result ≡ run + 1 }
    ensures other { level ≢ last → result ≡ 1 }
{
    if level == last {
        run.wrapping_add(1)
    } else {
        1
    }
}
