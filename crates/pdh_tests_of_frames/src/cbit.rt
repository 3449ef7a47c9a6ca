//! Codes over the far end alarm and control channel, and worked C bits.

ghost use Rattle.std.specs.Prelude.{◌<◌};

use pdh_cbit::{FeacReceiver, FeacSender, Fields};
use std::test::Fail;

// Sends so many bits of the code's words to the receiver. Says how many answers came, and the place,
// from 1, and the code of the last.
fn send(receiver: &mut FeacReceiver, code: u8, bits: u32) -> (u32, u32, Option<u8>)
    requires { code < 64 }
{
    let mut sender = FeacSender::new(code);
    let mut count = 0u32;
    let mut last = 0;
    let mut told = None;
    for place in 0..bits {
        if let Some(answer) = receiver.push(sender.next()) {
            count = count.saturating_add(1);
            last = place.saturating_add(1);
            told = Some(answer);
        }
    }
    (count, last, told)
}

#[test]
fn a_code_is_answered_once_at_ten_words(rt: HostRuntime) -> Result<(), Fail> {
    let mut receiver = FeacReceiver::new();
    let first = send(&mut receiver, 5, 400);
    // one bit that breaks the words, and the code comes anew
    let broken = receiver.push(false);
    let others = [send(&mut receiver, 5, 159), send(&mut receiver, 63, 160)];
    let due = [(0, 0, None), (1, 160, Some(63))];
    assert!(rt; (first, broken, others) == ((1, 160, Some(5)), None, due));
    Ok(())
}

#[test]
fn the_word_of_a_code(rt: HostRuntime) -> Result<(), Fail> {
    let mut sender = FeacSender::new(5);
    let mut word = 0u32;
    for _ in 0..16 {
        word = word.wrapping_mul(2).wrapping_add(u32::from(sender.next()));
    }
    assert!(rt; word == 0b1111_1111_0000_1010);
    Ok(())
}

#[test]
fn fields_of_three_ones(rt: HostRuntime) -> Result<(), Fail> {
    // C11, C31 and C73
    let fields = Fields::read((1 << 20) + (1 << 14) + 1);
    let due = Fields {
        id: true,
        feac: false,
        path: 4,
        febe: 0,
        link: 0,
        rest: 1,
    };
    assert!(rt; (fields, due.write()) == (due, (1 << 20) + (1 << 14) + 1));
    Ok(())
}
