use crate::{Assertions, GatheredRows};
use dl_base::Row;
use std::process::Abort;
use std::test::Fail;

const fn concept(concept: u32, individual: u32) -> Row {
    Row::Concept {
        concept,
        individual,
    }
}

const fn role(role: u32, from: u32, to: u32) -> Row {
    Row::Role { role, from, to }
}

#[test]
fn rows_come_and_go(rt: HostRuntime) -> Result<(), Fail> {
    // Whether the row is added or else removed, the answer, and how many rows and individuals there are then.
    let steps = [
        (true, role(2, 5, 5), true, 1, 1),
        (true, role(2, 5, 5), false, 1, 1),
        (true, role(1, 9, 5), true, 2, 2),
        (true, concept(7, 500_000_000), true, 3, 3),
        (true, role(1, 5, 9), true, 4, 3),
        (true, concept(3, 5), true, 5, 3),
        (false, role(2, 5, 6), false, 5, 3),
        (false, role(1, 9, 5), true, 4, 3),
        (false, role(1, 9, 5), false, 4, 3),
        (false, role(2, 5, 5), true, 3, 3),
        (false, role(1, 5, 9), true, 2, 2),
        (false, concept(3, 5), true, 1, 1),
        (true, concept(0, 0), true, 2, 2),
    ];
    let mut base = Assertions::new(rt.alloc());
    for (is_added, row, answer, rows, individuals) in steps {
        let answered = if is_added {
            base.add(row)?
        } else {
            base.del(row)
        };
        assert_eq!(rt; answered, answer);
        assert_eq!(rt; base.has(row), is_added);
        assert_eq!(rt; base.rows(), rows);
        assert_eq!(rt; base.individuals(), individuals);
    }
    assert_eq!(rt; base.next_individual(None), Some(0));
    assert_eq!(rt; base.next_individual(Some(0)), Some(500_000_000));
    assert_eq!(rt; base.next_individual(Some(500_000_000)), None);
    assert_eq!(rt; base.next_individual(Some(u32::MAX)), None);
    assert_eq!(rt; base.next_of(5, None), None);
    Ok(())
}

#[test]
fn an_individual_has_its_rows_in_order(rt: HostRuntime) -> Result<(), Fail> {
    let mut base = Assertions::new(rt.alloc());
    for n in 0..1_000u32 {
        base.add(role(1, 7, 999 - n))?;
    }
    base.add(role(1, 8, 7))?;
    base.add(role(0, 8, 7))?;
    base.add(concept(9, 7))?;
    base.add(role(0, 8, 8))?;
    assert_eq!(rt; base.rows(), 1_004);
    assert_eq!(rt; base.individuals(), 1_000);
    let mut after = None;
    after = follows(&rt, &base, after, concept(9, 7));
    after = follows(&rt, &base, after, role(0, 8, 7));
    for n in 0..1_000u32 {
        after = follows(&rt, &base, after, role(1, 7, n));
    }
    after = follows(&rt, &base, after, role(1, 8, 7));
    assert_eq!(rt; base.next_of(7, after), None);
    Ok(())
}

/// Asserts that this is the next row of individual 7.
fn follows(rt: &impl Abort, base: &Assertions, after: Option<Row>, row: Row) -> Option<Row> {
    let next = base.next_of(7, after);
    assert_eq!(rt; next, Some(row));
    next
}

#[test]
fn rows_in_any_order_are_put_in_order(rt: HostRuntime) -> Result<(), Fail> {
    let rows = vec![in rt.alloc();
        role(1, 9, 5),
        concept(3, u32::MAX),
        role(0, 5, 9),
        role(1, 9, 5),
        role(2, 7, 7),
        concept(0, 5),
        role(1, 5, 9),
    ]?;
    let base = Assertions::of_rows(rt.alloc(), rows)?;
    assert_eq!(rt; base.rows(), 6);
    assert_eq!(rt; base.individuals(), 4);
    let mut of_five = base.rows_naming(5);
    assert_eq!(rt; of_five.next(), Some(concept(0, 5)));
    assert_eq!(rt; of_five.next(), Some(role(0, 5, 9)));
    assert_eq!(rt; of_five.next(), Some(role(1, 5, 9)));
    assert_eq!(rt; of_five.next(), Some(role(1, 9, 5)));
    assert_eq!(rt; of_five.next(), None);
    assert_eq!(rt; of_five.next(), None);
    let mut of_seven = base.rows_naming(7);
    assert_eq!(rt; of_seven.next(), Some(role(2, 7, 7)));
    assert_eq!(rt; of_seven.next(), None);
    assert_eq!(rt;
        base.rows_naming(u32::MAX).next(),
        Some(concept(3, u32::MAX))
    );
    assert_eq!(rt; base.rows_naming(6).next(), None);
    let none = Assertions::of_rows(rt.alloc(), Vec::new(rt.alloc()))?;
    assert_eq!(rt; none.rows(), 0);
    assert_eq!(rt; none.individuals(), 0);
    Ok(())
}

#[test]
fn gathered_rows_are_counted_as_they_come(rt: HostRuntime) -> Result<(), Fail> {
    let mut gathered = GatheredRows::new(rt.alloc());
    assert!(rt; gathered.is_empty());
    for n in 0..10u32 {
        gathered.add(role(1, 7, n % 5))?;
    }
    assert!(rt; !gathered.is_empty());
    assert!(rt; gathered.has_at_most(10)?);
    assert!(rt; gathered.has_at_most(5)?);
    assert!(rt; !gathered.has_at_most(4)?);
    assert!(rt; gathered.name_at_most(6)?);
    assert!(rt; !gathered.name_at_most(5)?);
    gathered.add(concept(0, 4))?;
    gathered.del(role(1, 7, 4))?;
    gathered.add(role(1, 7, 9))?;
    gathered.add(role(1, 7, 9))?;
    gathered.del(role(1, 7, 8))?;
    assert!(rt; gathered.name_at_most(7)?);
    assert!(rt; !gathered.name_at_most(6)?);
    let rows = gathered.into_rows()?;
    assert_eq!(rt; rows.rows(), 6);
    assert_eq!(rt; rows.individuals(), 7);
    assert!(rt; rows.has(concept(0, 4)));
    assert!(rt; !rows.has(role(1, 7, 4)));
    Ok(())
}

#[test]
fn gathered_rows_are_listed_once(rt: HostRuntime) -> Result<(), Fail> {
    let mut waiting = GatheredRows::new(rt.alloc());
    waiting.add(role(1, 9, 5))?;
    waiting.add(concept(0, 5))?;
    waiting.add(role(1, 9, 5))?;
    let list = waiting.into_list()?;
    assert_eq!(rt; list.items(), [concept(0, 5), role(1, 9, 5)].as_slice());

    let mut settled = GatheredRows::new(rt.alloc());
    settled.add(role(1, 9, 5))?;
    settled.del(concept(0, 5))?;
    settled.add(role(1, 9, 5))?;
    settled.add(role(0, 7, 9))?;
    let list = settled.into_list()?;
    assert_eq!(rt; list.items(), [role(0, 7, 9), role(1, 9, 5)].as_slice());
    Ok(())
}
