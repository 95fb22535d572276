//! Lists of addresses (`cell_list`): what is listed after each call, by hand.

use cell_list::CellList;
use std::test::Fail;

#[test]
fn an_address_is_listed_once_and_in_order(rt: HostRuntime) -> Result<(), Fail> {
    let mut list = CellList::new(rt.alloc(), 8)?;
    assert!(rt; list.len() == 0);
    assert!(rt; list.push(5));
    assert!(rt; list.push(0));
    assert!(rt; !list.push(5));
    assert!(rt; list.push(7));
    assert!(rt; list.contains(5) && list.contains(7) && !list.contains(6));
    assert!(rt; list.len() == 3);
    assert!(rt; list.get(0) == 5 && list.get(1) == 0 && list.get(2) == 7);
    list.bring(0);
    assert!(rt; list.get(0) == 7 && list.get(1) == 0 && list.get(2) == 5);
    list.clear();
    assert!(rt; list.len() == 0 && !list.contains(5));
    assert!(rt; list.push(5));
    assert!(rt; list.get(0) == 5);
    Ok(())
}

#[test]
fn few_addresses_are_cleared_one_by_one(rt: HostRuntime) -> Result<(), Fail> {
    let mut list = CellList::new(rt.alloc(), 128)?;
    assert!(rt; list.push(5));
    assert!(rt; list.push(100));
    list.clear();
    assert!(rt; list.len() == 0);
    assert!(rt; !list.contains(5) && !list.contains(100));
    Ok(())
}
