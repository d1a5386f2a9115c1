//! Lists in order.
use sorted_lists::sort_by;
use std::test::Fail;

#[test]
fn ties_stand_as_they_stood(rt: HostRuntime) -> Result<(), Fail> {
    let mut items = vec![in rt.alloc(); (3, 'a'), (1, 'b'), (3, 'c'), (2, 'd'), (1, 'e')]?;
    sort_by(&mut items, |x: &(u8, char), y: &(u8, char)| x.0.cmp(&y.0))?;
    let sorted = [(1, 'b'), (1, 'e'), (2, 'd'), (3, 'a'), (3, 'c')];
    assert_eq!(rt; items.as_slice(), sorted.as_slice());
    Ok(())
}
