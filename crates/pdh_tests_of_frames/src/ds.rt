//! The frames of ANSI T1.107: what their slots carry, and what loses alignment; and parity.

use pdh_ds::{Ds2, Ds3, Ds3C, parity};
use pdh_shape::{Duty, Mark, Marks, Role, Service, Shape};
use std::test::Fail;

// How many slots of a frame carry the alignment signal, a service bit, a control, a justifiable bit
// and a tributary's bit.
fn roles<S: Shape>() -> [u32; 5] {
    let mut counts = [0u32; 5];
    for slot in 0..S::LEN {
        let kind = match S::role(slot) {
            Role::Align(_) => 0,
            Role::Service(_) => 1,
            Role::Control(_, _) => 2,
            Role::Just(_) => 3,
            Role::Info(_) => 4,
        };
        counts[kind] = counts[kind].saturating_add(1);
    }
    counts
}

// Whether a frame completes a loss by these framing bits of its own, after right frames.
fn loses_by<S: Shape>(framing: u64) -> bool {
    let clean = Marks {
        framing: 0,
        multi: false,
    };
    let wrong = Marks {
        framing,
        multi: false,
    };
    S::loses(&clean, &clean, &clean, &wrong)
}

#[test]
fn ds2(rt: HostRuntime) -> Result<(), Fail> {
    let found = (roles::<Ds2>(), Ds2::mark(98), Ds2::duty(0));
    let due = ([11, 1, 12, 4, 1148], Mark::Framing(0), Duty::Alarm);
    assert!(rt; found == due);
    let holds = [
        Ds2::inverted(1),
        Ds2::service(0, &Service::idle(), false),
        loses_by::<Ds2>(9),
    ];
    assert!(rt; holds == [true; 3]);
    Ok(())
}

#[test]
fn ds3(rt: HostRuntime) -> Result<(), Fail> {
    let found = (roles::<Ds3>(), Ds3::mark(2720), Ds3::duty(1));
    assert!(rt; found == ([31, 4, 21, 7, 4697], Mark::Multi, Duty::Parity));
    let holds = [
        Ds3::inverted(1),
        Ds3::service(1, &Service::idle(), true),
        loses_by::<Ds3>(0x8101),
    ];
    assert!(rt; holds == [false, true, true]);
    Ok(())
}

#[test]
fn ds3c(rt: HostRuntime) -> Result<(), Fail> {
    let found = (roles::<Ds3C>(), Ds3C::mark(2720), Ds3C::duty(4));
    assert!(rt; found == ([31, 25, 0, 7, 4697], Mark::Multi, Duty::PathParity));
    let holds = [
        Ds3C::role(510) == Role::Service(3),
        Ds3C::inverted(1),
        Ds3C::service(4, &Service::idle(), false),
        Ds3C::service(8, &Service::idle(), false),
        loses_by::<Ds3C>(0x8101),
    ];
    assert!(rt; holds == [true, false, false, true, true]);
    Ok(())
}

#[test]
fn three_ones_are_odd(rt: HostRuntime) -> Result<(), Fail> {
    assert!(rt; parity(&[true, false, true, true]));
    Ok(())
}
