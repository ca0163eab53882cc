//! The registers by their names (SJA1000 data sheet, 6.4.1, PeliCAN address layout). No other file has such a name.

ghost use Rattle.std.specs.Prelude.{◌≡◌, map, reverse, option_map};
ghost use Rattle.std.specs.Str.{str_eq_ignore_ascii_case};
ghost use Rattle.sja_plan_reading.specs.RegisterNames.{name_in, name_read, register_address};

/// The names of the registers, with their addresses. From 16 on stand the acceptance filter, in reset mode, and the
/// transmit buffer (`TX`) and the receive buffer (`RX`), out of it.
pub static REGISTERS: [(&str, u8); 50] = [
    ("MOD", 0),
    ("CMR", 1),
    ("SR", 2),
    ("IR", 3),
    ("IER", 4),
    ("BTR0", 6),
    ("BTR1", 7),
    ("OCR", 8),
    ("ALC", 11),
    ("ECC", 12),
    ("EWLR", 13),
    ("RXERR", 14),
    ("TXERR", 15),
    ("RMC", 29),
    ("RBSA", 30),
    ("CDR", 31),
    ("ACR0", 16),
    ("ACR1", 17),
    ("ACR2", 18),
    ("ACR3", 19),
    ("AMR0", 20),
    ("AMR1", 21),
    ("AMR2", 22),
    ("AMR3", 23),
    ("TX0", 16),
    ("TX1", 17),
    ("TX2", 18),
    ("TX3", 19),
    ("TX4", 20),
    ("TX5", 21),
    ("TX6", 22),
    ("TX7", 23),
    ("TX8", 24),
    ("TX9", 25),
    ("TX10", 26),
    ("TX11", 27),
    ("TX12", 28),
    ("RX0", 16),
    ("RX1", 17),
    ("RX2", 18),
    ("RX3", 19),
    ("RX4", 20),
    ("RX5", 21),
    ("RX6", 22),
    ("RX7", 23),
    ("RX8", 24),
    ("RX9", 25),
    ("RX10", 26),
    ("RX11", 27),
    ("RX12", 28),
];

/// The address of the register of this name, in either case.
pub fn register_address(name: &str) -> Option<u8>
    ensures { result ≡ register_address name.now }
{
    for register in &REGISTERS {
        if is_same_name(register.0, name) {
            return Some(register.1);
        }
    }
    None
}

/// The name of what is read at an address: from 16 on in reset mode that of the acceptance filter, and out of it that
/// of the receive buffer.
pub fn name_read(reset: bool, address: u8) -> Option<&'static str>
    ensures { option_map (λ name. name.now) result ≡ name_read reset address }
{
    if reset {
        first_name_in(&REGISTERS, address)
    } else {
        last_name_in(&REGISTERS, address)
    }
}

/// The first name of an address in these rows.
fn first_name_in(rows: &'static [(&'static str, u8)], address: u8) -> Option<&'static str>
    ensures { option_map (λ name. name.now) result ≡ name_in (map (λ r. (r.0.now, r.1)) rows.now) address }
{
    for row in rows {
        if row.1 == address {
            return Some(row.0);
        }
    }
    None
}

/// The last one.
fn last_name_in(rows: &'static [(&'static str, u8)], address: u8) -> Option<&'static str>
    ensures { option_map (λ name. name.now) result
        ≡ name_in (reverse (map (λ r. (r.0.now, r.1)) rows.now)) address }
{
    let mut name = None;
    for row in rows {
        if row.1 == address {
            name = Some(row.0);
        }
    }
    name
}

/// Whether two names are the same, in either case.
pub(crate) fn is_same_name(one: &str, other: &str) -> bool
    ensures { result ≡ str_eq_ignore_ascii_case one.now other.now }
{
    one.eq_ignore_ascii_case(other)
}
