//! The files of the commands, and how each is called.

ghost use Rattle.std.specs.Prelude.{◌≡◌, ◌+◌, ◌%◌, ◌≤◌, length};
ghost use Rattle.pdh_answers.specs.Names.{line_name as name_of_line, bent_name as name_of_bent, script_name as name_of_script, schedule_name as name_of_schedule, payload_name as name_of_payload, e1_name as name_of_e1, ds1_name as name_of_ds1, payload_out_name as name_of_payload_out, schedule_out_name as name_of_schedule_out, west_name as name_of_west, east_name as name_of_east, numbered_name as name_of_numbered};

use arrayvec::ArrayString;

/// Which file a line is read from.
#[derive(Clone, Copy, Debug, PartialEq, Eq)]
pub enum Bits {
    /// The recorded line.
    Line,
    /// The disturbed line.
    Bent,
}

/// A file of a command.
#[derive(Clone, Copy, Debug, PartialEq, Eq)]
pub enum File {
    /// The recorded line.
    Line,
    /// The disturbed line.
    Bent,
    /// How many bits of each tributary arrive in each frame.
    Schedule,
    /// How a line is disturbed.
    Script,
    /// The bits of a leaf, counted from 0.
    Leaf(u8),
    /// What a leaf received, counted from 0.
    Output(u8),
    /// The octets that are packed into a framed line.
    Payload,
    /// A framed 2048 kbit/s line.
    E1Line,
    /// A DS1 line.
    Ds1Line,
    /// The octets that a framed line gives.
    PayloadOut,
    /// The schedule that would make a line again.
    ScheduleOut,
    /// How the line from the west terminal is disturbed.
    West,
    /// How the line from the east terminal is disturbed.
    East,
}

/// A file's name, of at most 16 bytes.
pub type Name = ArrayString<16>;

// The last decimal digit of a number.
fn digit(n: u16) -> char
    ensures { result ≡ 48 + n % 10 }
{
    char::from(b'0' + (n % 10) as u8)
}

// The name of a leaf's file: a letter, and the last two digits of the leaf's number from 1.
#[tactic(auto, unfolding(crate::specs::Names::numbered_name))]
fn numbered_name(letter: &str, leaf: u8) -> Name
    requires { length letter.now ≡ 1 }
    ensures value { result.bytes ≡ name_of_numbered letter.now leaf }
    ensures short { length result.bytes ≡ 8 }
{
    let number = u16::from(leaf) + 1;
    let mut name = Name::new();
    name.push_str(letter);
    name.push(digit(number / 10));
    name.push(digit(number));
    name.push_str(".bits");
    name
}

// The name of the recorded line.
#[tactic(auto, unfolding(crate::specs::Names::line_name))]
fn line_name() -> Name
    ensures value { result.bytes ≡ name_of_line }
    ensures short { length result.bytes ≡ 9 }
{
    let mut name = Name::new();
    name.push_str("line.bits");
    name
}

// The name of the disturbed line.
#[tactic(auto, unfolding(crate::specs::Names::bent_name))]
fn bent_name() -> Name
    ensures value { result.bytes ≡ name_of_bent }
    ensures short { length result.bytes ≡ 9 }
{
    let mut name = Name::new();
    name.push_str("bent.bits");
    name
}

// The name of the schedule.
#[tactic(auto, unfolding(crate::specs::Names::schedule_name))]
fn schedule_name() -> Name
    ensures value { result.bytes ≡ name_of_schedule }
    ensures short { length result.bytes ≡ 12 }
{
    let mut name = Name::new();
    name.push_str("schedule.txt");
    name
}

// The name of the script.
#[tactic(auto, unfolding(crate::specs::Names::script_name))]
fn script_name() -> Name
    ensures value { result.bytes ≡ name_of_script }
    ensures short { length result.bytes ≡ 10 }
{
    let mut name = Name::new();
    name.push_str("script.txt");
    name
}

// The name of the octets that are packed.
#[tactic(auto, unfolding(crate::specs::Names::payload_name))]
fn payload_name() -> Name
    ensures value { result.bytes ≡ name_of_payload }
    ensures short { length result.bytes ≡ 11 }
{
    let mut name = Name::new();
    name.push_str("payload.bin");
    name
}

// The name of the framed 2048 kbit/s line.
#[tactic(auto, unfolding(crate::specs::Names::e1_name))]
fn e1_name() -> Name
    ensures value { result.bytes ≡ name_of_e1 }
    ensures short { length result.bytes ≡ 7 }
{
    let mut name = Name::new();
    name.push_str("e1.bits");
    name
}

// The name of the DS1 line.
#[tactic(auto, unfolding(crate::specs::Names::ds1_name))]
fn ds1_name() -> Name
    ensures value { result.bytes ≡ name_of_ds1 }
    ensures short { length result.bytes ≡ 8 }
{
    let mut name = Name::new();
    name.push_str("ds1.bits");
    name
}

// The name of the octets that a framed line gives.
#[tactic(auto, unfolding(crate::specs::Names::payload_out_name))]
fn payload_out_name() -> Name
    ensures value { result.bytes ≡ name_of_payload_out }
    ensures short { length result.bytes ≡ 11 }
{
    let mut name = Name::new();
    name.push_str("payload.out");
    name
}

// The name of the schedule that would make a line again.
#[tactic(auto, unfolding(crate::specs::Names::schedule_out_name))]
fn schedule_out_name() -> Name
    ensures value { result.bytes ≡ name_of_schedule_out }
    ensures short { length result.bytes ≡ 12 }
{
    let mut name = Name::new();
    name.push_str("schedule.out");
    name
}

// The name of what disturbs the line from the west terminal.
#[tactic(auto, unfolding(crate::specs::Names::west_name))]
fn west_name() -> Name
    ensures value { result.bytes ≡ name_of_west }
    ensures short { length result.bytes ≡ 8 }
{
    let mut name = Name::new();
    name.push_str("west.txt");
    name
}

// The name of what disturbs the line from the east terminal.
#[tactic(auto, unfolding(crate::specs::Names::east_name))]
fn east_name() -> Name
    ensures value { result.bytes ≡ name_of_east }
    ensures short { length result.bytes ≡ 8 }
{
    let mut name = Name::new();
    name.push_str("east.txt");
    name
}

impl File {
    ghost use Rattle.std.specs.Prelude.{◌≡◌};
    ghost use Rattle.pdh_answers.specs.Names.{name_of, line_file};

    /// The file that a line is read from.
    pub fn of_line(bits: Bits) -> File
        ensures { result ≡ line_file bits }
    {
        match bits {
            Bits::Line => File::Line,
            Bits::Bent => File::Bent,
        }
    }

    /// The file's name.
    pub fn name(self) -> Name
        ensures value { result.bytes ≡ name_of self }
        ensures short { length result.bytes ≤ 16 }
    {
        match self {
            File::Line => line_name(),
            File::Bent => bent_name(),
            File::Schedule => schedule_name(),
            File::Script => script_name(),
            File::Leaf(leaf) => numbered_name("t", leaf),
            File::Output(leaf) => numbered_name("o", leaf),
            File::Payload => payload_name(),
            File::E1Line => e1_name(),
            File::Ds1Line => ds1_name(),
            File::PayloadOut => payload_out_name(),
            File::ScheduleOut => schedule_out_name(),
            File::West => west_name(),
            File::East => east_name(),
        }
    }
}
