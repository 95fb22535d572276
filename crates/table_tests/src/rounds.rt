//! Places that two seats claim in one thread (`claims`). What is expected is worked out by hand.
use claims::Claims;
use std::test::Fail;

#[test]
fn a_place_is_claimed_once_in_a_round_and_is_free_in_the_next(rt: HostRuntime) -> Result<(), Fail> {
    let (claims, mut owner) = Claims::open(rt.alloc(), 16)?;
    let mut one = owner.lend(&claims);
    let mut other = owner.lend(&claims);
    assert!(rt; one.claim(&claims, 3, 7) == Ok(()));
    assert!(rt; other.claim(&claims, 3, 9) == Err(7));
    assert!(rt; other.look(&claims, 3) == Some(7));
    assert!(rt; one.look(&claims, 4) == None);
    owner.take_back(&claims, one);
    owner.take_back(&claims, other);
    let mut later = owner.lend(&claims);
    assert!(rt; later.look(&claims, 3) == Some(7));
    owner.take_back(&claims, later);
    owner.end(&claims);
    assert!(rt; owner.begin(&claims));
    let mut again = owner.lend(&claims);
    assert!(rt; again.look(&claims, 3) == None);
    assert!(rt; again.claim(&claims, 3, 9) == Ok(()));
    assert!(rt; again.claim(&claims, 3, 7) == Err(9));
    Ok(())
}
