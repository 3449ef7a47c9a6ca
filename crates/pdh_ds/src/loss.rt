//! Loss of alignment of a frame in blocks, by the marks of three frames in a row.

// When alignment is lost: by framing slots in a row, or by multiframe slots.
ghost use Rattle.std.specs.Prelude.{◌≡◌, ◌<◌, ◌≤◌, ◌+◌, ◌*◌, cond};
ghost use Rattle.pdh_ds.specs.Loss.{IsLossRule, is_wrong as is_wrong_in, wrong_of_two as wrong_of_two_in, wrong_in, ends_wrong as ends_wrong_in, window_wrong as window_wrong_in, loses as loses_in};

use pdh_shape::Marks;

/// Alignment is lost where so many framing slots in a row hold so many wrong bits.
#[derive(Clone, Copy, Debug, PartialEq, Eq)]
pub struct LossRule {
    /// Framing slots in a frame.
    pub framing: u32,
    /// Framing slots in a row that are looked at.
    pub window: u32,
    /// The least number of them that are wrong.
    pub wrong: u32,
}

/// Whether a framing slot is wrong.
fn is_wrong(marks: &Marks, number: u32) -> bool
    requires { number < 64 }
    ensures { result ≡ is_wrong_in marks.now number }
{
    (marks.framing >> number) % 2 == 1
}

/// Whether a framing slot of two frames in a row is wrong, counted from the first one's first.
fn wrong_of_two(framing: u32, before: &Marks, here: &Marks, number: u32) -> bool
    requires few { framing ≤ 64 }
    requires within { number < 2 * framing }
    ensures { result ≡ wrong_of_two_in framing before.now here.now number }
{
    if number < framing {
        is_wrong(before, number)
    } else {
        is_wrong(here, number - framing)
    }
}

/// How many are wrong of the framing slots in a row that begin with one of two frames.
fn wrong_from(rule: &LossRule, before: &Marks, here: &Marks, first: u32) -> u32
    requires rule { IsLossRule rule.now }
    requires within { first + rule.now.window ≤ 2 * rule.now.framing }
    ensures { result ≡ wrong_in rule.now before.now here.now first rule.now.window }
{
    let mut wrong = 0u32;
    for k in 0..rule.window {
        wrong += one_if(wrong_of_two(rule.framing, before, here, first + k));
    }
    wrong
}

/// One where it is so, else none.
fn one_if(so: bool) -> u32
    ensures { result ≡ cond so 1 0 }
{
    if so { 1 } else { 0 }
}

/// Whether too many are wrong of the framing slots in a row that end with one of the second frame.
fn ends_wrong(rule: &LossRule, before: &Marks, here: &Marks, last: u32) -> bool
    requires rule { IsLossRule rule.now }
    requires within { last < rule.now.framing }
    ensures { result ≡ ends_wrong_in rule.now before.now here.now last }
{
    let first = rule.framing + last + 1 - rule.window;
    wrong_from(rule, before, here, first) >= rule.wrong
}

/// Whether too many are wrong of some framing slots in a row that end in the second frame.
pub fn window_wrong(rule: &LossRule, before: &Marks, here: &Marks) -> bool
    requires rule { IsLossRule rule.now }
    ensures { result ≡ window_wrong_in rule.now before.now here.now }
{
    for last in 0..rule.framing {
        if ends_wrong(rule, before, here, last) {
            return true;
        }
    }
    false
}

/// Whether a frame with marks d, after frames with marks b and c, completes a loss of alignment.
pub fn loses(rule: &LossRule, b: &Marks, c: &Marks, d: &Marks) -> bool
    requires rule { IsLossRule rule.now }
    ensures { result ≡ loses_in rule.now b.now c.now d.now }
{
    window_wrong(rule, c, d) || b.multi && c.multi && d.multi
}
