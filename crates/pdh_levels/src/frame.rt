//! The bytes of a frame of the top, and by how much what a leaf gets is behind what arrived.

ghost use Rattle.std.specs.Prelude.{◌≡◌, ◌≤◌, ◌<◌, ◌+◌, ◌*◌, ◌/◌, ◌^◌, All, length};
ghost use Rattle.pdh_line.specs.Progress.{short_by as bits_short};
ghost use Rattle.pdh_line.specs.Nodes.{top_len, delay_below as delay_below_levels, delay_of};
ghost use Rattle.pdh_levels.specs.Levels.{AreLevels, IsLevel, level_numbers, numbers_of};
ghost use Rattle.pdh_shape.specs.declared.place.Level.{Level};

use pdh_shape::{ALLOWANCE, LEAD, Level};

/// The whole bytes of a frame of the top.
pub fn frame_bytes(levels: &[Level]) -> u32
    requires { AreLevels levels.now }
    ensures { result ≡ top_len (numbers_of levels.now) / 8 }
{
    levels[0].len / 8
}

// By how many bits a node that holds back so many frames keeps a tributary short.
fn short_by(level: &Level, frames: u32) -> u32
    requires level { IsLevel level.now }
    requires low { level.now.low < level.now.len }
    requires few { frames ≤ 1535 }
    ensures { result ≡ bits_short (level_numbers level.now) frames }
{
    let stored = if level.locked { 0 } else { LEAD + ALLOWANCE };
    stored + frames * (level.low + 1)
}

// By how many bits a leaf is short, below a node of the first of these levels that holds back so many frames.
fn delay_below(levels: &[Level], frames: u32) -> u32
    requires each { All IsLevel levels.now }
    requires low { All (λ (level : Level). level.low < level.len) levels.now }
    requires few { (frames + 1) * 8 ^ length levels.now ≤ 1536 }
    ensures { result ≡ delay_below_levels (numbers_of levels.now) frames }
{
    match levels {
        [] => 0,
        [level] => short_by(level, frames),
        [level, below @ ..] => delay_below(below, short_by(level, frames) / below[0].len + 4),
    }
}

/// By how many bits of a leaf what is received is behind what arrived at most, where every tributary is within the
/// tolerance: the top holds back two frames.
pub fn delay(levels: &[Level]) -> u32
    requires levels { AreLevels levels.now }
    requires low { All (λ (level : Level). level.low < level.len) levels.now }
    ensures { result ≡ delay_of (numbers_of levels.now) }
{
    delay_below(levels, 2)
}
