// Tables with a witness, through each call.
use super::*;
use dl_base::{Basic, Elem, Role, Tables, Witness};
use std::test::Fail;

const LEADS: Role = Role {
    name: 1,
    inverse: false,
};

const SHARED: Elem = Elem::Shared(Witness {
    role: LEADS,
    generation: 3,
});

const ROWS: [ListedRow; 5] = [
    ListedRow::Role {
        role: 1,
        from: Elem::Named(7),
        to: SHARED,
    },
    ListedRow::Concept {
        concept: 4,
        element: SHARED,
    },
    ListedRow::Concept {
        concept: 4,
        element: Elem::Named(9),
    },
    ListedRow::Concept {
        concept: 4,
        element: Elem::Named(9),
    },
    ListedRow::Role {
        role: 1,
        from: Elem::Named(7),
        to: Elem::Named(9),
    },
];

// The elements in concept 4, from one to the next.
fn members<T: Tables>(t: &T) -> [Option<Elem>; 3] {
    let first = t.next_concept(4, None);
    let second = t.next_concept(4, first);
    [first, second, t.next_concept(4, second)]
}

// The elements to which role 1 leads from individual 7, from one to the next.
fn targets<T: Tables>(t: &T) -> [Option<Elem>; 3] {
    let first = t.next_edge(LEADS, Elem::Named(7), None);
    let second = t.next_edge(LEADS, Elem::Named(7), first);
    [first, second, t.next_edge(LEADS, Elem::Named(7), second)]
}

#[test]
fn rows_are_found_by_each_call(rt: HostRuntime) -> Result<(), Fail> {
    let t = ListedTables::new(ROWS.to_vec(rt.alloc())?);
    let want = [Some(Elem::Named(9)), Some(SHARED), None];
    assert_eq!(rt; members(&t), want);
    assert_eq!(rt; targets(&t), want);
    assert!(rt; t.has_concept(4, SHARED) && !t.has_concept(4, Elem::Named(7)));
    assert!(rt; t.has_role(1, Elem::Named(7), SHARED) && !t.has_role(1, SHARED, Elem::Named(7)));
    let back = LEADS.inverted();
    assert_eq!(rt; t.next_source(LEADS, None), Some(Elem::Named(7)));
    assert_eq!(rt; t.next_source(back, Some(Elem::Named(9))), Some(SHARED));
    assert_eq!(rt; t.count(Basic::Concept(4)), 2);
    assert_eq!(rt; t.count(Basic::Exists(LEADS)), 1);
    assert_eq!(rt; t.count(Basic::Exists(back)), 2);
    Ok(())
}
