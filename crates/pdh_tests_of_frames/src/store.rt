//! A store filled and emptied, and the laws of stores for a frame of the standards.

use pdh_eframes::E2;
use pdh_shape::{STORE_SIZE, THRESHOLD};
use pdh_store::{Overflow, Store, Underflow, laws};
use std::test::Fail;

#[test]
fn bits_leave_in_the_order_of_their_arrival(rt: HostRuntime) -> Result<(), Fail> {
    let mut store = Store::open(rt.alloc())?;
    let empty = store.leave();
    for place in 0..STORE_SIZE as u32 {
        let before = (store.fill(), store.carries_more());
        let arrived = store.arrive(place % 3 == 0);
        assert!(rt;
            (before, arrived) == ((place, place >= THRESHOLD), Ok(())),
            "at {place}"
        );
    }
    let refused = store.arrive(true);
    assert!(rt; (refused, store.fill() as usize) == (Err(Overflow), STORE_SIZE));
    for place in 0..STORE_SIZE as u32 {
        assert!(rt; store.leave() == Ok(place % 3 == 0), "at {place}");
    }
    assert!(rt; [empty, store.leave()] == [Err(Underflow); 2]);
    Ok(())
}

// An empty store gets ones, and a full one keeps the newer half of its bits.
#[test]
fn half_is_added_and_dropped(rt: HostRuntime) -> Result<(), Fail> {
    let mut store = Store::open(rt.alloc())?;
    store.add_half();
    for place in 0..STORE_SIZE / 2 {
        assert!(rt; store.leave() == Ok(true), "at {place}");
    }
    for place in 0..STORE_SIZE {
        assert!(rt; store.arrive(place % 5 == 0) == Ok(()), "at {place}");
    }
    assert!(rt; store.fill() as usize == STORE_SIZE);
    store.drop_half();
    for place in STORE_SIZE / 2..STORE_SIZE {
        assert!(rt; store.leave() == Ok(place % 5 == 0), "at {place}");
    }
    assert!(rt; store.leave() == Err(Underflow));
    Ok(())
}

#[test]
fn laws_hold_of_the_second_order_frame(_rt: HostRuntime) -> Result<(), Fail> {
    laws::fill_at_frame_start::<E2>();
    laws::fill_before_slot::<E2>();
    laws::fill_after_arrivals::<E2>();
    Ok(())
}
