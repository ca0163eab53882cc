//! The bits of the registers by their names (SJA1000 data sheet, 6.4.3 to 6.4.7, 6.5.3 and 6.5.4).

ghost use Rattle.std.specs.Prelude.{◌≡◌, map, option_map};
ghost use Rattle.sja_plan_reading.specs.BitNames.{bit_names};

/// The addresses of the registers whose bits have names, with the names, bit 0 first; an empty one where a bit has
/// none. The others hold a number or a code.
pub static BITS: [(u8, [&str; 8]); 7] = [
    (0, ["RM", "LOM", "STM", "AFM", "", "", "", ""]),
    (1, ["TR", "AT", "RRB", "CDO", "SRR", "", "", ""]),
    (2, ["RBS", "DOS", "TBS", "TCS", "RS", "TS", "ES", "BS"]),
    (3, ["RI", "TI", "EI", "DOI", "WUI", "EPI", "ALI", "BEI"]),
    (
        4,
        ["RIE", "TIE", "EIE", "DOIE", "WUIE", "EPIE", "ALIE", "BEIE"],
    ),
    (
        8,
        [
            "OCMODE0", "OCMODE1", "OCPOL0", "OCTN0", "OCTP0", "OCPOL1", "OCTN1", "OCTP1",
        ],
    ),
    (
        31,
        [
            "CD.0", "CD.1", "CD.2", "CLOCKOFF", "", "RXINTEN", "CBP", "CANMODE",
        ],
    ),
];

/// The names of the bits of the register at an address, bit 0 first; none where its bits have none.
pub fn bit_names(address: u8) -> Option<&'static [&'static str; 8]>
    ensures { option_map (λ names. map (λ name. name.now) names.now) result ≡ bit_names address }
{
    for row in &BITS {
        if row.0 == address {
            return Some(&row.1);
        }
    }
    None
}
