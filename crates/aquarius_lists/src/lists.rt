//! That each call which can answer want of memory succeeds where there is memory, and what it then gives.
use cd_list::{Copied, Equals, Queue, Sequence, Text};
use std::test::Fail;

#[test]
fn lists_grow_and_shrink(rt: HostRuntime) -> Result<(), Fail> {
    let alloc = rt.alloc();
    let mut list: Sequence<u16> = Sequence::new(alloc);
    list.push(3)?;
    list.push(5)?;
    list.insert(0, 2)?;
    list.append(Sequence::from_slice(alloc, [7, 11].as_slice())?)?;
    list.extend([13].as_slice())?;
    assert_eq!(rt; list.as_slice(), [2, 3, 5, 7, 11, 13].as_slice());
    let copy = list.copy(alloc)?;
    assert!(rt; copy.equals(&list));
    list.truncate(2);
    assert_eq!(rt; list.len(), 2);
    let second = list.remove(1);
    assert_eq!(rt; second, 3);
    assert!(rt; !copy.equals(&list));
    assert_eq!(rt; copy.get(5).copied(), Some(13));
    assert_eq!(rt; copy.get(6).copied(), None);
    Ok(())
}

#[test]
fn lists_of_lists_and_pairs_are_copied(rt: HostRuntime) -> Result<(), Fail> {
    let alloc = rt.alloc();
    let mut files: Sequence<(Text, Sequence<u8>)> = Sequence::new(alloc);
    files.push((
        Text::of(alloc, "t.p")?,
        Sequence::from_slice(alloc, b"cnf".as_slice())?,
    ))?;
    let copies = files.copy(alloc)?;
    assert!(rt; copies.equals(&files));
    let chosen = Some(Text::of(alloc, "a")?);
    assert!(rt; chosen.copy(alloc)?.equals(&chosen));
    Ok(())
}

#[test]
fn lists_are_sorted_by_keys(rt: HostRuntime) -> Result<(), Fail> {
    let mut list = Sequence::from_slice(rt.alloc(), [5, 2, 9, 4].as_slice())?;
    list.sort_by_key(|item: &u64| *item);
    assert_eq!(rt; list.as_slice(), [2, 4, 5, 9].as_slice());
    Ok(())
}

#[test]
fn texts_grow_and_are_ordered(rt: HostRuntime) -> Result<(), Fail> {
    let alloc = rt.alloc();
    let mut text = Text::of(alloc, "ab")?;
    text.push_str("cd")?;
    text.push_ascii(b'e')?;
    assert_eq!(rt; text.as_str(), "abcde");
    assert!(rt; Text::of_ascii(alloc, b"abc".as_slice())? < text);
    assert!(rt; text.copy(alloc)?.equals(&text));
    Ok(())
}

#[test]
fn queues_are_taken_from_at_the_front(rt: HostRuntime) -> Result<(), Fail> {
    let mut queue: Queue<u16> = Queue::new(rt.alloc());
    queue.push_back(2)?;
    queue.push_back(3)?;
    assert_eq!(rt; queue.get(1).copied(), Some(3));
    assert_eq!(rt; queue.pop_front(), Some(2));
    assert_eq!(rt; queue.pop_front(), Some(3));
    assert_eq!(rt; queue.pop_front(), None);
    assert!(rt; queue.is_empty());
    Ok(())
}
