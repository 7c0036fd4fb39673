//! A table that is kept in step with a peer.
use edge_tables::rib_sync::{Inbox, Outbox};
use mv_base::table_defs::Change;
use std::test::*;

/// A peer is sent what changed since it was sent something last, withdrawals first, and all anew once it is back.
#[test]
fn in_step(rt: HostRuntime) -> Result<(), Fail> {
    let mut outbox = Outbox::<u32, u32>::of(rt.alloc());
    outbox.set(7, 70).ok().ok_or("memory")?;
    assert_eq!(rt; outbox.flush().next(), None);
    outbox.replay_all().ok().ok_or("memory")?;
    assert_eq!(rt; outbox.flush().next(), Some(Change::Reach(7, 70)));
    outbox.set(3, 30).ok().ok_or("memory")?;
    outbox.unset(&7).ok().ok_or("memory")?;
    let mut pending = outbox.flush();
    assert_eq!(rt; pending.next(), Some(Change::Unreach(7)));
    assert_eq!(rt; pending.next(), Some(Change::Reach(3, 30)));
    assert_eq!(rt; pending.next(), None);
    outbox.down();
    assert_eq!(rt; outbox.is_up(), false);
    assert_eq!(rt; outbox.get(&3), Some(&30));
    Ok(())
}

/// A receiver has what it was sent.
#[test]
fn takes(rt: HostRuntime) -> Result<(), Fail> {
    let mut inbox = Inbox::<u32, u32>::of(rt.alloc());
    inbox.apply(Change::Reach(7, 70)).ok().ok_or("memory")?;
    inbox.apply(Change::Reach(3, 30)).ok().ok_or("memory")?;
    inbox.apply(Change::Unreach(7)).ok().ok_or("memory")?;
    inbox.apply(Change::Reach(4, 40)).ok().ok_or("memory")?;
    inbox.remove(&4);
    assert_eq!(rt; inbox.get(&3), Some(&30));
    inbox.retain(|_key: &u32, value: &mut u32| -> bool {
        *value = 31;
        true
    });
    assert_eq!(rt; inbox.get(&3), Some(&31));
    assert_eq!(rt; inbox.iter().count(), 1);
    inbox.clear();
    assert_eq!(rt; inbox.get(&3), None);
    Ok(())
}
