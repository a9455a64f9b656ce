//! Letters that wait, on a small case.
use cd_names::{Name, Names};
use cd_waiting::Waiting;
use std::alloc::{AllocError, Global};
use std::test::Fail;

fn name(seq: u32) -> Name {
    Name { peer: 0, seq }
}

fn needs(alloc: Global, first: u32, second: u32) -> Result<Names, AllocError> {
    let mut names = Names::new(alloc);
    names.push(name(first))?;
    names.push(name(second))?;
    Ok(names)
}

#[test]
fn the_first_letter_whose_names_are_known_is_found(rt: HostRuntime) -> Result<(), Fail> {
    let alloc = rt.alloc();
    let mut waiting: Waiting<u32> = Waiting::new(alloc);
    assert!(rt; waiting.is_empty());
    waiting.put(70, needs(alloc, 1, 9)?)?;
    waiting.put(71, needs(alloc, 2, 1)?)?;
    waiting.put(72, Names::new(alloc))?;
    assert_eq!(rt; waiting.first_ready(|n| n.seq < 1), Some(2));
    assert_eq!(rt; waiting.first_ready(|n| n.seq < 5), Some(1));
    assert_eq!(rt; waiting.first_ready(|n| n.seq < 10), Some(0));
    assert!(rt; waiting.len() == 3);
    if waiting.len() > 1 {
        assert_eq!(rt; *waiting.peek(1), 71);
        assert_eq!(rt; waiting.take(1), 71);
    }
    assert_eq!(rt; waiting.first_ready(|n| n.seq < 5), Some(1));
    assert_eq!(rt; waiting.len(), 2);
    Ok(())
}
