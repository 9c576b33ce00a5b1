//! Roles that come, stay, go and come again.
ghost use Rattle.std.specs.Prelude.{◌≡◌, ◌<◌, ◌≤◌, ◌+◌};
ghost use Rattle.dl_base.specs.Sets.{HasRole};
ghost use Rattle.dl_base.specs.declared.concept.Role.{Role as AnyRole};

use crate::WitnessBook;
use dl_base::{Role, RoleSet, Witness};
use std::process::Abort;
use std::test::Fail;

const FIRST: Role = Role {
    name: 0,
    inverse: true,
};

const SECOND: Role = Role {
    name: 1,
    inverse: false,
};

/// The roles that are to be live.
fn chosen(first: bool, second: bool) -> RoleSet
    ensures { (r : AnyRole) → HasRole result r → r.name < 2 }
{
    let mut live = RoleSet::new();
    if first {
        live.add(FIRST);
    }
    if second {
        live.add(SECOND);
    }
    live
}

fn witness(role: Role, generation: u64) -> Option<Witness> {
    match generation {
        0 => None,
        _ => Some(Witness { role, generation }),
    }
}

/// Makes these roles live, and asserts their generations, 0 for a role that is not live.
fn assert_set(rt: &impl Abort, book: &mut WitnessBook, live: (bool, bool), generations: (u64, u64))
    requires names { book.old.roles ≡ 2 }
    requires calls { book.old.calls ≤ 4 }
    ensures names { book.new.roles ≡ 2 }
    ensures calls { book.new.calls ≡ book.old.calls + 1 }
{
    book.set_live(&chosen(live.0, live.1));
    assert_eq!(rt; book.current(FIRST), witness(FIRST, generations.0));
    assert_eq!(rt; book.current(SECOND), witness(SECOND, generations.1));
    assert_eq!(rt; book.current(FIRST.inverted()), None);
}

#[test]
fn comes_stays_goes_and_comes_again(rt: HostRuntime) -> Result<(), Fail> {
    let mut book = WitnessBook::new(rt.alloc(), 2)?;
    assert_eq!(rt; book.current(FIRST), None);
    assert_set(&rt, &mut book, (true, false), (1, 0));
    assert_set(&rt, &mut book, (true, true), (1, 1));
    assert_set(&rt, &mut book, (false, true), (0, 1));
    assert!(rt;
        !book.is_current(Witness {
            role: FIRST,
            generation: 1
        })
    );
    assert_set(&rt, &mut book, (true, true), (2, 1));
    assert!(rt;
        book.is_current(Witness {
            role: FIRST,
            generation: 2
        })
    );
    assert!(rt;
        !book.is_current(Witness {
            role: FIRST,
            generation: 1
        })
    );
    assert_eq!(rt;
        book.current(Role {
            name: 300,
            inverse: false
        }),
        None
    );
    assert_eq!(rt; book.calls(), 4);
    let large = WitnessBook::new(rt.alloc(), u32::MAX)?;
    assert_eq!(rt; large.current(SECOND), None);
    Ok(())
}
