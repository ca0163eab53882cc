//! [`Kind`]: what a bit was for a node.

/// What a bit was for a node, as a drawing colours and names it.
#[derive(Clone, Copy, Debug)]
pub(crate) enum Kind {
    /// SOF.
    StartBit,
    /// A bit of the identifier or its extension.
    IdentifierBit,
    /// RTR or SRR.
    RemoteBit,
    /// IDE, r1, r0, or a bit of DLC.
    ControlBit,
    /// A bit of the data field.
    DataBit,
    /// A bit of the CRC sequence, or the CRC delimiter.
    CheckBit,
    /// The ACK slot or the ACK delimiter.
    AckBit,
    /// A bit of EOF.
    EndBit,
    /// A stuff bit.
    StuffBit,
    /// A bit of an active error flag.
    ActiveFlag,
    /// A bit of a passive error flag.
    PassiveFlag,
    /// A bit of an overload flag.
    OverloadFlag,
    /// A bit of the delimiter of a flag.
    FlagEnd,
    /// A bit of intermission.
    GapBit,
    /// A bit of suspend transmission.
    SuspendedBit,
    /// A bit that found the bus idle.
    IdleBit,
    /// A bit in which the node waited for eleven recessive levels.
    WaitingBit,
    /// A bit in reset mode or bus-off.
    ResetBit,
}

impl Kind {
    ghost use Rattle.std.specs.Prelude.{◌≡◌};
    ghost use Rattle.text_svg.specs.Kinds.{class_of, name_of};

    /// Its class, by which the style sheet gives it a colour.
    pub(crate) fn class(self) -> &'static str
        ensures { result.now ≡ class_of self }
    {
        match self {
            Kind::StartBit => "sof",
            Kind::IdentifierBit => "id",
            Kind::RemoteBit => "rtr",
            Kind::ControlBit => "control",
            Kind::DataBit => "data",
            Kind::CheckBit => "crc",
            Kind::AckBit => "ack",
            Kind::EndBit => "eof",
            Kind::StuffBit => "stuff",
            Kind::ActiveFlag => "active",
            Kind::PassiveFlag => "passive",
            Kind::OverloadFlag => "overload",
            Kind::FlagEnd => "delimiter",
            Kind::GapBit => "gap",
            Kind::SuspendedBit => "suspend",
            Kind::IdleBit => "idle",
            Kind::WaitingBit => "waiting",
            Kind::ResetBit => "reset",
        }
    }

    /// Its name.
    pub(crate) fn name(self) -> &'static str
        ensures { result.now ≡ name_of self }
    {
        match self {
            Kind::StartBit => "SOF",
            Kind::IdentifierBit => "identifier",
            Kind::RemoteBit => "RTR or SRR",
            Kind::ControlBit => "IDE, r1, r0 or DLC",
            Kind::DataBit => "data field",
            Kind::CheckBit => "CRC field",
            Kind::AckBit => "ACK field",
            Kind::EndBit => "EOF",
            Kind::StuffBit => "stuff bit",
            Kind::ActiveFlag => "active error flag",
            Kind::PassiveFlag => "passive error flag",
            Kind::OverloadFlag => "overload flag",
            Kind::FlagEnd => "delimiter",
            Kind::GapBit => "intermission",
            Kind::SuspendedBit => "suspend transmission",
            Kind::IdleBit => "bus idle",
            Kind::WaitingBit => "waiting for the bus",
            Kind::ResetBit => "in reset",
        }
    }
}
