use crate::sample;
use std::test::Fail;

/// The sample of size 4, as its format writes it out.
#[test]
fn the_sample_of_four(rt: HostRuntime) -> Result<(), Fail> {
    let script = sample(rt.alloc(), 4)?;
    let wanted = b"ontology
SubClassOf(Prof Staff)
SubClassOf(Prof Some(teaches))
Domain(teaches Staff)
Range(teaches Course)
Disjoint(Staff Course)
end
begin 0
add 0 Staff p1
add 0 Staff p2
add 0 teaches p3 c4
add 0 Prof p4
commit 0
ask q(?x) :- Staff(?x)
ask q(?x) :- teaches(?x,?y), Course(?y)
ask q(?x,?y) :- teaches(?x,?z), teaches(?y,?z)
check
";
    assert_eq!(rt; script.items(), wanted.as_slice());
    Ok(())
}

/// The largest sample is as long as its room allows.
#[test]
fn the_largest_sample(rt: HostRuntime) -> Result<(), Fail> {
    let script = sample(rt.alloc(), 2000)?;
    assert!(rt; script.items().len() <= 52_300);
    assert!(rt; script.items().ends_with(b"check\n"));
    Ok(())
}
