//! What stores take of memory. `rt try --test --fail-alloc N` refuses the Nth growth of each test.

use std::process::Abort;
use tagmem::{ListStore, PageStore, TaggedStore};

// Puts a capability, whose code is its granule's number. A put whose memory is refused leaves the store as it was, and is
// made when it is tried again.
fn put<S: TaggedStore>(rt: &impl Abort, store: &mut S, granule: u64) {
    let count = store.count();
    assert!(rt; count < u32::MAX && 0 < granule && granule < 1 << 60);
    if store.put_cap(granule, true, [7; 16], granule).is_err() {
        assert!(rt; store.count() == count && store.get(granule).is_none());
        assert!(rt; store.put_cap(granule, true, [7; 16], granule).is_ok());
    }
    assert_eq!(rt; store.entry(granule), Some((true, [7; 16], granule)));
}

// Granules at both ends of a page, after it and at the end of memory, one of which is put twice, and bytes of one that
// was never put.
fn holds_what_was_put<S: TaggedStore>(rt: &impl Abort, store: &mut S) {
    for granule in [0u64, 255, 256, (1 << 60) - 1, 255] {
        assert!(rt; store.count() < u32::MAX);
        assert!(rt; store.put_cap(granule, true, [7; 16], 1).is_ok());
    }
    assert_eq!(rt; (store.count(), store.get(1)), (4, None));
    assert!(rt; store.count() < u32::MAX && store.put_bytes(5, 3, &[0xaa]).is_ok());
    let bytes = [0, 0, 0, 0xaa, 0, 0, 0, 0, 0, 0, 0, 0, 0, 0, 0, 0];
    assert_eq!(rt;
        (store.get(5), store.get(255)),
        (Some((false, bytes)), Some((true, [7; 16])))
    );
}

#[test]
fn both_hold_what_was_put(rt: HostRuntime) {
    holds_what_was_put(&rt, &mut ListStore::new(rt.alloc()));
    holds_what_was_put(&rt, &mut PageStore::new(rt.alloc()));
}

// Granules of a page each.
#[test]
fn a_list_puts_what_was_refused(rt: HostRuntime) {
    let mut store = ListStore::new(rt.alloc());
    for page in 1..21 {
        put(&rt, &mut store, 256 * page);
    }
    assert_eq!(rt; store.count(), 20);
}

#[test]
fn pages_put_what_was_refused(rt: HostRuntime) {
    let mut store = PageStore::new(rt.alloc());
    for page in 1..21 {
        put(&rt, &mut store, 256 * page);
    }
    assert_eq!(rt; store.count(), 20);
}

// Of a page that is there each other granule is put, whichever growth after those of the page is refused.
#[test]
fn each_other_granule_of_a_page(rt: HostRuntime) {
    let mut store = PageStore::new(rt.alloc());
    put(&rt, &mut store, 256);
    for granule in 257..512 {
        assert!(rt; store.count() < u32::MAX);
        assert!(rt; store.put_cap(granule, true, [7; 16], granule).is_ok());
    }
    assert_eq!(rt;
        (store.count(), store.entry(511)),
        (256, Some((true, [7; 16], 511)))
    );
}
