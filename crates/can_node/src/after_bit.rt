//! What a bit makes of the piece under way.
use super::ending::Ending;
use super::stage::Stage;

/// The piece goes on, and the node stands in it at this stage; or it ended.
#[derive(Debug, Drop)]
pub(crate) enum AfterBit {
    InPiece(Stage),
    Ended(Ending),
}

impl AfterBit {
    ghost use Rattle.std.specs.Prelude.{◌≡◌};
    ghost use Rattle.can_node.specs.Inside.Quiet.{stage_in};

    /// The stage, where the piece goes on.
    pub(crate) fn stage(&self) -> Option<Stage>
        ensures { result ≡ stage_in self.now }
    {
        match self {
            AfterBit::InPiece(stage) => Some(*stage),
            AfterBit::Ended(_) => None,
        }
    }
}
