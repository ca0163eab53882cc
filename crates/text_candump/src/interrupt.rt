//! [`Interrupt`]: what the driver of a controller is told by one interrupt.

use super::bus_error::BusError;
use super::controller_state::ControllerState;
use can_node_rules::Counters;

/// Arbitration was lost (Linux, `linux/can/error.h`, `CAN_ERR_LOSTARB`).
const LOST_ARBITRATION: u32 = 0x002;
/// The status of the controller (`CAN_ERR_CRTL`).
const CONTROLLER: u32 = 0x004;
/// A violation of the protocol, and an error on the bus (`CAN_ERR_PROT` and `CAN_ERR_BUSERROR`).
const BUS_ERROR: u32 = 0x088;
/// The error counters are given (`CAN_ERR_CNT`).
const COUNTERS: u32 = 0x200;

/// A message was lost since the buffer was full (`CAN_ERR_CRTL_RX_OVERFLOW`).
const RECEIVE_OVERFLOW: u8 = 0x01;
/// REC is at the warning limit (`CAN_ERR_CRTL_RX_WARNING`).
const RECEIVE_WARNING: u8 = 0x04;
/// TEC is (`CAN_ERR_CRTL_TX_WARNING`).
const TRANSMIT_WARNING: u8 = 0x08;
/// REC is error passive (`CAN_ERR_CRTL_RX_PASSIVE`).
const RECEIVE_PASSIVE: u8 = 0x10;
/// TEC is (`CAN_ERR_CRTL_TX_PASSIVE`).
const TRANSMIT_PASSIVE: u8 = 0x20;
/// The controller is error active again (`CAN_ERR_CRTL_ACTIVE`).
const ACTIVE_AGAIN: u8 = 0x40;

/// What a bit brought of which the driver makes an error frame: the causes of one interrupt, and what it reads then.
#[derive(Clone, Copy, Debug)]
pub(crate) struct Interrupt {
    /// The place code of the bit in which arbitration was lost (SJA1000 data sheet, 6.4.8).
    pub(crate) lost: Option<u8>,
    /// A message was overrun.
    pub(crate) overrun: bool,
    /// A fault.
    pub(crate) bus_error: Option<BusError>,
    /// The state of the controller, where it's a new one.
    pub(crate) change: Option<ControllerState>,
    /// The error counters.
    pub(crate) counters: Counters,
}

impl Interrupt {
    ghost use Rattle.std.specs.Prelude.{◌≡◌, ◌≤◌};
    ghost use Rattle.text_candump.specs.ErrorFrames.{tells, is_of_controller, interrupt_classes, greater_status};
    ghost use Rattle.text_candump.specs.ErrorFrames.{change_status, status_byte, interrupt_bytes};

    /// Whether there is anything of which the driver makes an error frame.
    pub(crate) fn tells(&self) -> bool
        ensures { result ≡ tells self.now }
    {
        self.lost.is_some() || self.is_of_controller() || self.bus_error.is_some()
    }

    /// Whether the controller tells of itself.
    fn is_of_controller(&self) -> bool
        ensures { result ≡ is_of_controller self.now }
    {
        self.overrun || self.change.is_some()
    }

    /// Its classes in an identifier.
    pub(crate) fn classes(&self) -> u32
        ensures { result ≡ interrupt_classes self.now }
    {
        let lost = if self.lost.is_some() {
            LOST_ARBITRATION
        } else {
            0
        };
        let controller = if self.is_of_controller() {
            CONTROLLER
        } else {
            0
        };
        let bus_error = if self.bus_error.is_some() {
            BUS_ERROR
        } else {
            0
        };
        COUNTERS + lost + controller + bus_error
    }

    /// The data bytes.
    pub(crate) fn bytes(&self) -> [u8; 8]
        ensures { result ≡ interrupt_bytes self.now }
    {
        let lost = match self.lost {
            Some(code) => code,
            None => 0,
        };
        let (violation, segment) = match self.bus_error {
            Some(error) => (error.violation(), error.segment.code()),
            None => (0, 0),
        };
        let tec = counter_byte(self.counters.tec);
        [
            lost,
            self.status(),
            violation,
            segment,
            0,
            0,
            tec,
            self.counters.rec,
        ]
    }

    /// The status of the controller.
    fn status(&self) -> u8
        ensures { result ≡ status_byte self.now }
    {
        let overrun = bit_if(self.overrun, RECEIVE_OVERFLOW);
        overrun + self.change_status()
    }

    /// What the status says of a new state.
    fn change_status(&self) -> u8
        ensures is { result ≡ change_status self.now.change self.now.counters }
        ensures small { result ≤ 64 }
    {
        match self.change {
            Some(ControllerState::Active) => ACTIVE_AGAIN,
            Some(ControllerState::Warning) => self.greater(TRANSMIT_WARNING, RECEIVE_WARNING),
            Some(ControllerState::Passive) => self.greater(TRANSMIT_PASSIVE, RECEIVE_PASSIVE),
            None => 0,
        }
    }

    /// These bits of TEC and of REC, of the one that is greater, or of both.
    fn greater(&self, transmit: u8, receive: u8) -> u8
        requires { (transmit ≤ 32) × (receive ≤ 16) }
        ensures is { result ≡ greater_status transmit receive self.now.counters }
        ensures small { result ≤ 48 }
    {
        let rec = u16::from(self.counters.rec);
        let receives = bit_if(self.counters.tec <= rec, receive);
        bit_if(rec <= self.counters.tec, transmit) + receives
    }
}

ghost use Rattle.std.specs.Prelude.{◌≡◌, ◌≤◌};
ghost use Rattle.text_candump.specs.ErrorFrames.{bit_if, counter_byte};

/// These bits where a test holds, and else none.
fn bit_if(test: bool, bit: u8) -> u8
    ensures is { result ≡ bit_if test bit }
    ensures small { result ≤ bit }
{
    if test { bit } else { 0 }
}

/// An error counter in a byte: 255 where it is greater.
fn counter_byte(counter: u16) -> u8
    ensures { result ≡ counter_byte counter }
{
    if counter < 255 { counter as u8 } else { 255 }
}
