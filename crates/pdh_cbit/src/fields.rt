//! The fields of the 21 C bits of a frame.

ghost use Rattle.std.specs.Prelude.{◌≡◌, ℕ, ◌+◌, ◌*◌, ◌^◌, ◌<◌, ◌≤◌};
ghost use Rattle.pdh_bits.specs.Bits.{number_of};
ghost use Rattle.pdh_cbit.specs.CBits.{c_bit, of_subframe};

/// What the 21 C bits of a frame say. The bits of a number stand in the frame's order, the first most
/// significant.
#[derive(Clone, Copy, Debug, PartialEq, Eq)]
pub struct Fields {
    /// Application identification: C11.
    pub id: bool,
    /// The far end alarm and control channel: C13.
    pub feac: bool,
    /// Path parity: C31 to C33.
    pub path: u8,
    /// Far end block error: C41 to C43.
    pub febe: u8,
    /// The data link: C51 to C53.
    pub link: u8,
    /// All others: C12, C21 to C23, C61 to C63, and C71 to C73.
    pub rest: u16,
}

impl Fields {
    ghost use Rattle.pdh_cbit.specs.Fields.{fields_of, IsInRange};

    /// The fields of the C bits, C11 in bit 20 and C73 in bit 0.
    pub fn read(c: u32) -> Fields
        requires { c < 2 ^ 21 }
        ensures fields { result ≡ fields_of c }
        ensures range { IsInRange result }

        // No other number has these fields.
        ensures only { (d : ℕ) → d < 2 ^ 21 → fields_of d ≡ result → d ≡ c }
    {
        let second = u16::from(of_subframe(c, 2));
        let sixth = u16::from(of_subframe(c, 6));
        let seventh = u16::from(of_subframe(c, 7));
        Fields {
            id: c_bit(c, 1, 1),
            feac: c_bit(c, 1, 3),
            path: of_subframe(c, 3),
            febe: of_subframe(c, 4),
            link: of_subframe(c, 5),
            rest: 512 * u16::from(c_bit(c, 1, 2)) + 64 * second + 8 * sixth + seventh,
        }
    }

    /// The C bits of the fields.
    pub fn write(&self) -> u32
        requires { IsInRange self.now }
        ensures range { result < 2 ^ 21 }
        ensures fields { fields_of result ≡ self.now }
    {
        let rest = u32::from(self.rest);
        let first = 4 * u32::from(self.id) + 2 * (rest / 512) + u32::from(self.feac);
        let second = rest / 64 % 8;
        let upper = 64 * first + 8 * second + u32::from(self.path);
        let middle = 8 * u32::from(self.febe) + u32::from(self.link);
        4096 * upper + 64 * middle + rest % 64
    }
}

// A C bit by its subframe and its number there.
fn c_bit(c: u32, subframe: u32, number: u32) -> bool
    requires first { 1 ≤ subframe }
    requires last { subframe ≤ 7 }
    requires one { 1 ≤ number }
    requires three { number ≤ 3 }
    ensures { result ≡ c_bit c subframe number }
{
    (c >> (24 - 3 * subframe - number)) % 2 == 1
}

// The number that the three C bits of a subframe write.
fn of_subframe(c: u32, subframe: u32) -> u8
    requires first { 1 ≤ subframe }
    requires last { subframe ≤ 7 }
    ensures number { result ≡ number_of (of_subframe c subframe) }
    ensures range { result < 8 }
{
    4 * u8::from(c_bit(c, subframe, 1))
        + 2 * u8::from(c_bit(c, subframe, 2))
        + u8::from(c_bit(c, subframe, 3))
}
