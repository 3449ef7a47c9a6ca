//! Chains and orders of bits in words.

use pdh_report::Reading;

/// The order in which bits are read, as `most significant bit first, not inverted`.
pub fn reading_words(reading: Reading) -> &'static str {
    match (reading.lsb_first, reading.inverted) {
        (false, false) => "most significant bit first, not inverted",
        (false, true) => "most significant bit first, inverted",
        (true, false) => "least significant bit first, not inverted",
        (true, true) => "least significant bit first, inverted",
    }
}

/// The same in fewer words, as `msb first, not inverted`.
pub fn short_reading_words(reading: Reading) -> &'static str {
    match (reading.lsb_first, reading.inverted) {
        (false, false) => "msb first, not inverted",
        (false, true) => "msb first, inverted",
        (true, false) => "lsb first, not inverted",
        (true, true) => "lsb first, inverted",
    }
}

/// What a chain or a framed stream is, in words, by its own word: rates in kbit/s from the leaves up, and the standards.
pub fn chain_words(chain: &str) -> &'static str {
    match chain {
        "e12" => "4 x 2048 kbit/s in 8448 (G.742)",
        "e23" => "4 x 8448 kbit/s in 34368 (G.751)",
        "e34" => "4 x 34368 kbit/s in 139264 (G.751)",
        "e13" => "16 x 2048 kbit/s in 4 x 8448 in 34368 (G.742, G.751)",
        "e24" => "16 x 8448 kbit/s in 4 x 34368 in 139264 (G.751)",
        "e14" => "64 x 2048 kbit/s in 16 x 8448 in 4 x 34368 in 139264 (G.742, G.751)",
        "m12" => "4 DS1 in a DS2 (T1.107)",
        "m23" => "7 DS2 in a DS3, M23 (T1.107)",
        "m13" => "28 DS1 in 7 DS2 in a DS3, M23 (T1.107)",
        "c13" => "28 DS1 in 7 DS2 in a DS3, C-bit parity (T1.107)",
        "e1" => "2048 kbit/s, framed with CRC-4 (G.704, G.706)",
        "ds1-esf" => "DS1, extended superframe (T1.107)",
        "ds1-sf" => "DS1, superframe of 12 (T1.107)",
        _ => "a chain without a name",
    }
}

/// Whether a longer part could show levels below those of a chain, of which so many levels were found.
pub fn could_be_deeper(chain: &str, levels: usize) -> bool {
    match chain {
        "e24" | "e34" | "e23" | "m23" => true,
        "c13" => levels < 2,
        _ => false,
    }
}
