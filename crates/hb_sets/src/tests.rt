//! Sets that were worked out by hand.
use crate::MixSet;

#[test]
fn sets_have_their_members(rt: HostRuntime) {
    let low = MixSet::empty().with(0).with(63);
    let high = MixSet::empty().with(64).with(1023);
    let all = low.union(&high);
    for (n, want) in [
        (0, true),
        (1, false),
        (63, true),
        (64, true),
        (1023, true),
        (1024, false),
        (65535, false),
    ] {
        assert_eq!(rt; all.has(n), want, "at {n}");
    }
    for (wider, found) in [(&low, Some(64)), (&high, Some(0)), (&all, None)] {
        assert_eq!(rt; all.first_outside(wider), found);
        assert_eq!(rt; all.subset(wider), found.is_none());
        assert_eq!(rt; all.same(wider), found.is_none());
    }
    assert!(rt; all.copy().same(&high.union(&low)));
}
