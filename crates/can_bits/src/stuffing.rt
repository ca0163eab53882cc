//! Stuff bits, put in.

ghost use Rattle.std.specs.Prelude.{◌≡◌, ◌≤◌, ◌+◌, ◌*◌, [], length, vec_capacity};
ghost use Rattle.can_levels.specs.Stuffing.{Stuffed};

use can_levels::Level;

/// How many equal levels a stuff bit follows.
const RUN: u8 = 5;

/// These levels with their stuff bits: one of the other level after each five equal ones, stuff bits counted (Bosch CAN
/// 2.0 part A section 5), also after the last (this project's own reading).
pub(crate) fn push_stuffed(line: &mut Vec<Level>, levels: &[Level])
    requires empty { line.old.items ≡ [] }
    requires room { 5 * length levels.now ≤ 4 * vec_capacity line.old }
    ensures stuffed { Stuffed levels.now line.new.items }
    ensures count { 4 * length line.new.items ≤ 5 * length levels.now }
    ensures capacity { vec_capacity line.new ≡ vec_capacity line.old }
{
    let mut last = Level::Recessive;
    let mut run = 0;
    for level in levels {
        run = if *level == last { run + 1 } else { 1 };
        last = *level;
        line.push_reserved(last);
        if run == RUN {
            last = last.opposite();
            line.push_reserved(last);
            run = 1;
        }
    }
}
