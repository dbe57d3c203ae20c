ghost use Rattle.std.specs.Prelude.{◌≡◌, ◌+◌, ◌≤◌, ◌<◌, ◌^◌};

use mig_pagestore::PageStore;
use std::process::Abort;
use std::test::Fail;

// Numbers of which every third has a page of zeros; the others fill slabs of 64, 128, .. 8192 pages, and come into one of 16,384.
const MANY: u64 = 30_000;

// The byte that is all through the page of this number.
fn byte_of(pfn: u64) -> u8 {
    if pfn % 3 == 0 {
        0
    } else {
        (pfn % 251 + 1) as u8
    }
}

// A page of this byte, about which a proof is to know nothing.
fn page(byte: u8) -> [u8; 4096] {
    [byte; 4096]
}

// The page of this number is there, with these as its first byte and its last.
fn has(rt: &impl Abort, store: &PageStore, pfn: u64, first: u8, last: u8) -> Result<(), Fail> {
    let page = store.get(pfn).ok_or("no page")?;
    assert_eq!(rt;
        (page[0], page[1], page[4094], page[4095]),
        (first, last, last, last),
        "{pfn}"
    );
    Ok(())
}

// Writes the first byte of the page that is lent.
fn write_first(store: &mut PageStore, pfn: u64, byte: u8)
    requires { pfn < 2 ^ 52 }
    ensures { store.new.spare ≡ store.old.spare }
{
    if let Some(page) = store.lend(pfn) {
        page[0] = byte;
    }
}

// Pages of zeros are put into room that was reserved, lent and written, put over and put over others, and removed.
fn change_zeros(rt: &impl Abort, store: &mut PageStore) -> Result<(), Fail> {
    store.reserve(3)?;
    store.put_spare(5, &page(0));
    store.put_spare(7, &page(0));
    write_first(store, 5, 9);
    store.put_spare(6, &page(1));
    has(rt, store, 5, 9, 0)?;
    has(rt, store, 6, 1, 1)?;
    has(rt, store, 7, 0, 0)?;
    store.put(5, &page(0))?;
    store.put(6, &page(0))?;
    store.put(7, &page(2))?;
    has(rt, store, 5, 0, 0)?;
    has(rt, store, 6, 0, 0)?;
    has(rt, store, 7, 2, 2)?;
    assert!(rt; store.remove(5));
    assert!(rt; !store.remove(5));
    has(rt, store, 6, 0, 0)?;
    has(rt, store, 7, 2, 2)?;
    assert_eq!(rt; store.len(), 2);
    Ok(())
}

#[test]
fn zeros_are_pages(rt: HostRuntime) -> Result<(), Fail> {
    let mut store = PageStore::new(rt.alloc());
    change_zeros(&rt, &mut store)
}

// Puts a page of each number into room that is there.
fn put_many(store: &mut PageStore)
    requires { 30000 ≤ store.old.spare }
{
    for pfn in 0..MANY {
        store.put_spare(pfn, &page(byte_of(pfn)));
    }
}

// Each number has its page, with this added to the first byte of those that are zeros.
fn has_many(rt: &impl Abort, store: &PageStore, first: u8) -> Result<(), Fail> {
    for pfn in 0..MANY {
        let byte = byte_of(pfn);
        has(rt, store, pfn, if byte == 0 { first } else { byte }, byte)?;
    }
    assert_eq!(rt; store.len(), MANY);
    Ok(())
}

// Pages fill the first slabs, with room that was reserved at once; each page of zeros takes its place when it is lent, and
// goes into the room of another, which was removed.
fn fill_slabs(rt: &impl Abort, store: &mut PageStore) -> Result<(), Fail> {
    store.reserve(MANY as usize)?;
    put_many(store);
    has_many(rt, store, 0)?;
    for pfn in 0..MANY {
        if byte_of(pfn) == 0 {
            write_first(store, pfn, 7);
        }
    }
    has_many(rt, store, 7)?;
    for pfn in 0..MANY {
        if byte_of(pfn) == 0 {
            assert!(rt; store.remove(pfn));
            store.put(pfn, &page(0))?;
        }
    }
    has_many(rt, store, 0)
}

#[test]
fn slabs_grow(rt: HostRuntime) -> Result<(), Fail> {
    let mut store = PageStore::new(rt.alloc());
    fill_slabs(&rt, &mut store)
}
