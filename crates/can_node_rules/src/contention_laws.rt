//! Laws of contention. Each stands as the contract of a function that does nothing.

ghost use Rattle.std.specs.Prelude.{◌≡◌, ◌≢◌, [], ℕ, List, Option, None, Contains};
ghost use Rattle.can_frame.specs.Frame.{FrameValue};
ghost use Rattle.can_node_rules.specs.Contending.{IsContention};

/// Where there is a frame, some frame goes on.
pub fn some_frame_goes_on()
    ensures { (fs : List FrameValue) (places : List (Option ℕ)) → fs ≢ [] → IsContention fs places
        → Contains places None }
{}

/// Contention has one answer at most.
pub fn contention_has_one_answer()
    ensures { (fs : List FrameValue) (a b : List (Option ℕ)) → IsContention fs a → IsContention fs b → a ≡ b }
{}
