//! Handles that are given, dropped, given again and never given.

use crate::{Arena, Gone, Handle, laws};
use std::process::Abort;
use std::test::Fail;

const fn handle(slot: u32, generation: u64) -> Handle {
    Handle { slot, generation }
}

/// Inserts the value where there is room for it.
fn insert(arena: &mut Arena<u16>, value: u16) -> Option<Handle> {
    if arena.room() == 0 {
        return None;
    }
    arena.insert(value).ok()
}

/// Takes memory for so many values where there is room for them.
fn reserve(arena: &mut Arena<u16>, n: u32) -> bool {
    n <= arena.room() && arena.reserve(n).is_ok()
}

/// Asserts that the handle names the value, or why it names none.
fn assert_names(rt: &impl Abort, arena: &Arena<u16>, h: Handle, named: Result<u16, Gone>) {
    assert_eq!(rt; arena.get(h).copied(), named);
}

/// Adds one to the value that the handle names.
fn raise(arena: &mut Arena<u16>, h: Handle) -> Result<(), Gone> {
    let value = arena.get_mut(h)?;
    *value = value.saturating_add(1);
    Ok(())
}

#[test]
fn slots_are_taken_again(rt: HostRuntime) -> Result<(), Fail> {
    let mut arena = Arena::new(rt.alloc(), 3);
    assert_eq!(rt; arena.room(), 3);
    for slot in 0..3 {
        assert_eq!(rt;
            insert(&mut arena, 10 + slot),
            Some(handle(u32::from(slot), 1))
        );
    }
    assert_eq!(rt; insert(&mut arena, 13), None);
    assert_eq!(rt; arena.remove(handle(1, 1)), Ok(11));
    assert_eq!(rt; arena.remove(handle(0, 1)), Ok(10));
    assert_eq!(rt; arena.room(), 2);
    assert_eq!(rt; insert(&mut arena, 20), Some(handle(0, 2)));
    assert_eq!(rt; insert(&mut arena, 21), Some(handle(1, 2)));
    assert_names(&rt, &arena, handle(0, 2), Ok(20));
    assert_names(&rt, &arena, handle(1, 2), Ok(21));
    assert_names(&rt, &arena, handle(2, 1), Ok(12));
    Ok(())
}

#[test]
fn handles_are_refused(rt: HostRuntime) -> Result<(), Fail> {
    let mut arena = Arena::new(rt.alloc(), 2);
    assert_names(&rt, &arena, handle(0, 1), Err(Gone::Never));
    assert_eq!(rt; insert(&mut arena, 5), Some(handle(0, 1)));
    assert_eq!(rt; arena.remove(handle(0, 1)), Ok(5));
    assert_eq!(rt; arena.remove(handle(0, 1)), Err(Gone::Dropped(1)));
    assert_eq!(rt; insert(&mut arena, 6), Some(handle(0, 2)));
    assert_eq!(rt; raise(&mut arena, handle(0, 1)), Err(Gone::Dropped(2)));
    assert_eq!(rt; raise(&mut arena, handle(0, 2)), Ok(()));
    assert_names(&rt, &arena, handle(0, 1), Err(Gone::Dropped(2)));
    assert_names(&rt, &arena, handle(0, 2), Ok(7));
    assert_names(&rt, &arena, handle(0, 3), Err(Gone::Never));
    assert_names(&rt, &arena, handle(0, 0), Err(Gone::Never));
    assert_names(&rt, &arena, handle(1, 1), Err(Gone::Never));
    assert_names(&rt, &arena, handle(u32::MAX, u64::MAX), Err(Gone::Never));
    Ok(())
}

#[test]
fn memory_is_there(rt: HostRuntime) -> Result<(), Fail> {
    let mut arena = Arena::new(rt.alloc(), u32::MAX);
    assert!(rt; reserve(&mut arena, 100));
    for slot in 0..200 {
        assert_eq!(rt; insert(&mut arena, slot), Some(handle(u32::from(slot), 1)));
    }
    assert_eq!(rt; arena.room(), u32::MAX - 200);
    Ok(())
}

#[test]
fn laws_hold_of_any_values() {
    laws::begins_as_store::<u16>();
    laws::stays_a_store::<u16>();
    laws::takes_room::<u16>();
    laws::names_one::<u16>();
    laws::names_inserted::<u16>();
    laws::names_written::<u16>();
    laws::names_on::<u16>();
    laws::drops_removed::<u16>();
    laws::stays_dropped::<u16>();
    laws::gives_new_ones::<u16>();
    laws::live_was_given::<u16>();
    laws::stays_given::<u16>();
    laws::gives_the_next::<u16>();
    laws::gone_once::<u16>();
    laws::gone_is_not_live::<u16>();
}
