//! Orders, owners and waves on small cases.
use cd_list::{Copied, Equals};
use cd_names::{Count, Counts, Name, Policy, Stamp, Token, owner_of, wave_closed};
use std::test::Fail;

#[test]
fn names_go_by_number_before_peer(rt: HostRuntime) {
    let early = Name { peer: 5, seq: 1 };
    let late = Name { peer: 0, seq: 2 };
    assert!(rt; early < late);
    assert!(rt; Name { peer: 4, seq: 1 } < early);
    assert!(rt; Stamp { time: 3, peer: 9 } < Stamp { time: 4, peer: 0 });
    assert!(rt; Stamp { time: 3, peer: 0 } < Stamp { time: 3, peer: 1 });
}

#[test]
fn owners_by_each_policy(rt: HostRuntime) {
    assert_eq!(rt; owner_of(Policy::Round, 2, 4_294_967_295, 7, 3), 2);
    assert_eq!(rt; owner_of(Policy::Round, 1, 1, 7, 4), 2);
    assert_eq!(rt; owner_of(Policy::Issuer, 2, 9, 7, 3), 2);
    assert_eq!(rt; owner_of(Policy::Size, 2, 9, 7, 3), 1);
}

#[test]
fn waves_are_summed_beyond_a_word(rt: HostRuntime) -> Result<(), Fail> {
    let alloc = rt.alloc();
    let all = u64::MAX;
    let mut one = Counts::new(alloc);
    let mut two = Counts::new(alloc);
    one.push(Count {
        sent: 0,
        received: all,
    })?;
    one.push(Count {
        sent: 5,
        received: 2,
    })?;
    two.push(Count {
        sent: 1,
        received: all,
    })?;
    two.push(Count {
        sent: all,
        received: 2,
    })?;
    let token = Token { one, two };
    // 2^64 + 1 letters received, and 2^64 sent
    assert!(rt; !wave_closed(&token, 2));
    let mut closed = token.copy(alloc)?;
    closed.two.set(
        0,
        Count {
            sent: 2,
            received: 0,
        },
    );
    assert!(rt; wave_closed(&closed, 2));
    assert!(rt; !wave_closed(&closed, 3));
    assert!(rt; !closed.equals(&token));
    closed.one.push(Count {
        sent: 0,
        received: 0,
    })?;
    assert!(rt; !wave_closed(&closed, 2));
    Ok(())
}
