use std::test::Fail;
use sy_queue::DeadlineQueue;

#[test]
fn keeps_the_earliest_in_front(rt: HostRuntime) -> Result<(), Fail> {
    let mut queue = DeadlineQueue::new(rt.alloc(), 5)?;
    let mut other = DeadlineQueue::new(rt.alloc(), 5)?;
    assert_eq!(rt; queue.least(), None);
    assert_eq!(rt; queue.spare(), 5);
    queue.put(7);
    queue.put(-3);
    queue.put(12);
    queue.put(7);
    assert_eq!(rt; queue.spare(), 1);
    assert_eq!(rt; queue.least(), Some(-3));
    queue.copy_into(&mut other);
    queue.pop_through(-4);
    assert_eq!(rt; queue.least(), Some(-3));
    queue.pop_through(-3);
    assert_eq!(rt; queue.least(), Some(7));
    queue.pop_through(7);
    assert_eq!(rt; queue.least(), Some(12));
    assert_eq!(rt; queue.spare(), 4);
    queue.pop_through(100);
    assert_eq!(rt; queue.least(), None);
    assert_eq!(rt; other.least(), Some(-3));
    assert_eq!(rt; other.spare(), 1);
    Ok(())
}
