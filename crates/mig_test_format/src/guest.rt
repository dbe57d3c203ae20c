use mig_guest::{Guest, PartCode, PartKey};
use mig_headers::{Cause, Kind};
use mig_hvm::{params_fault, read_params};
use mig_pagestore::PageStore;
use mig_pagetypes::PageType;
use mig_policy::{merge_pairs, pairs_fault, read_cpuid, read_msr, read_tsc};
use mig_records::{body_fault, p2m_fault, read_body, read_p2m};
use std::alloc::Global;
use std::process::Abort;
use std::test::Fail;

// A page of this byte, about which a proof is to know nothing.
fn page(byte: u8) -> [u8; 4096] {
    [byte; 4096]
}

// Puts, changes, lends and takes out pages of an empty store.
fn change_pages(rt: &impl Abort, store: &mut PageStore) -> Result<(), Fail> {
    store.reserve(1)?;
    store.put_spare(5, &page(5));
    store.put(7, &page(7))?;
    assert!(rt; store.get(7).is_some());
    store.overwrite(7, 4094, &[1, 2]);
    if let Some(page) = store.lend(7) {
        page[0] = 3;
    }
    let page = store.get(7).ok_or("no page")?;
    assert_eq!(rt; (page[0], page[1], page[4094], page[4095]), (3, 7, 1, 2));
    assert_eq!(rt; store.next_from(6), Some(7));
    assert!(rt; store.remove(7));
    assert!(rt; !store.remove(7));
    assert_eq!(rt; store.len(), 1);
    Ok(())
}

#[test]
fn pages_by_number(rt: HostRuntime) -> Result<(), Fail> {
    let mut store = PageStore::new(rt.alloc());
    change_pages(&rt, &mut store)
}

fn key(code: u32, key1: u32, key2: u32) -> PartKey {
    PartKey { code, key1, key2 }
}

// The parts of the guest, in their order, are just these.
fn has(rt: &impl Abort, guest: &Guest, parts: &[(PartKey, &[u8])]) {
    let mut after = None;
    for (key, bytes) in parts {
        assert_eq!(rt; guest.next_part(after), Some(*key));
        assert_eq!(rt; guest.part(*key), Some(*bytes));
        after = Some(*key);
    }
    assert_eq!(rt; guest.next_part(after), None);
}

// Writes on what the guest lends.
fn fill(guest: &mut Guest) {
    if let Some(page) = guest.page_mut(5) {
        page[4095] = 9;
    }
    if let Some(part) = guest.part_mut(key(4, 1, 0)) {
        part.fill(7);
    }
}

fn set_some(guest: &mut Guest) -> Result<(), Fail> {
    guest.set_frame(5, PageType::L1Tab, Some(&page(1)))?;
    guest.set_part(key(4, 1, 0), &[1, 2, 3, 4])?;
    guest.set_part(key(4, 0, 9), &[5])?;
    Ok(())
}

// Sets, lends and reads what an empty guest has.
fn lend(rt: &impl Abort, guest: &mut Guest) -> Result<(), Fail> {
    set_some(guest)?;
    guest.set_top(0xffff);
    assert_eq!(rt; guest.top(), 0xffff);
    fill(guest);
    let page = guest.page(5).ok_or("no page")?;
    assert_eq!(rt; (page[0], page[4095]), (1, 9));
    assert_eq!(rt; guest.frame(5), Some(PageType::L1Tab));
    has(rt, guest, &[(key(4, 0, 9), &[5]), (key(4, 1, 0), &[7; 4])]);
    Ok(())
}

#[test]
fn a_guest_is_lent(rt: HostRuntime) -> Result<(), Fail> {
    let mut guest = Guest::new(rt.alloc(), Kind::Pv);
    lend(&rt, &mut guest)
}

// Leaf 3 with subleaf 0; the MSRs 0xc0000080 and 0x10; parameter 1, twice.
const LEAF: [u8; 24] = [
    3, 0, 0, 0, 0, 0, 0, 0, 1, 0, 0, 0, 2, 0, 0, 0, 3, 0, 0, 0, 4, 0, 0, 0,
];

const MSRS: [u8; 32] = [
    0x80, 0, 0, 0xc0, 1, 0, 0, 0, 0, 0x0d, 0, 0, 0, 0, 0, 0, 0x10, 0, 0, 0, 2, 0, 0, 0, 3, 3, 3, 3,
    3, 3, 3, 3,
];

const PARAMETERS: [u8; 40] = [
    2, 0, 0, 0, 0, 0, 0, 0, 1, 0, 0, 0, 0, 0, 0, 0, 5, 0, 0, 0, 0, 0, 0, 0, 1, 0, 0, 0, 0, 0, 0, 0,
    7, 0, 0, 0, 0, 0, 0, 0,
];

// Bytes about which a proof is to know nothing.
fn hidden(bytes: &[u8]) -> &[u8] {
    bytes
}

fn read_hvm_bodies(rt: &impl Abort, guest: &mut Guest) -> Result<(), Fail> {
    let leaves = hidden(&LEAF);
    assert_eq!(rt; leaves.len() % 24, 0);
    read_cpuid(guest, leaves)?;
    let msrs = hidden(&MSRS);
    assert_eq!(rt; msrs.len() % 16, 0);
    read_msr(guest, msrs)?;
    read_tsc(guest, &[0x22; 24])?;
    let parameters = hidden(&PARAMETERS);
    assert_eq!(rt; params_fault(parameters), None);
    read_params(guest, parameters)?;
    has_hvm_parts(rt, guest);
    Ok(())
}

#[test]
fn bodies_of_an_hvm_guest(rt: HostRuntime) -> Result<(), Fail> {
    let mut guest = Guest::new(rt.alloc(), Kind::Hvm);
    read_hvm_bodies(&rt, &mut guest)
}

fn has_hvm_parts(rt: &impl Abort, guest: &Guest) {
    has(
        rt,
        guest,
        &[
            (key(8, 0, 0), &[0x22; 20]),
            (key(10, 1, 0), &[7, 0, 0, 0, 0, 0, 0, 0]),
            (key(17, 3, 0), &LEAF[8..]),
            (key(18, 0x10, 0), &MSRS[20..]),
            (key(18, 0xc000_0080, 0), &MSRS[4..16]),
        ],
    );
}

// A vCPU's id, 4 bytes that are ignored, and the part.
const XSAVE: [u8; 12] = [3, 0, 0, 0, 9, 9, 9, 9, 77, 0, 0, 1];

fn read_pv_bodies(rt: &impl Abort, guest: &mut Guest) -> Result<(), Fail> {
    let far = hidden(&[3, 16, 0, 0, 9, 9, 9, 9, 77]);
    assert_eq!(rt;
        body_fault(PartCode::VcpuXsave, far),
        Some(Cause::VcpuId(4099))
    );
    let short = hidden(&[3, 0, 0, 0, 9, 9, 9]);
    assert_eq!(rt;
        body_fault(PartCode::VcpuXsave, short),
        Some(Cause::BadLength(7))
    );
    assert_eq!(rt;
        body_fault(PartCode::SharedInfo, short),
        Some(Cause::BadLength(7))
    );
    // an empty part is none
    let empty = hidden(&[3, 0, 0, 0, 9, 9, 9, 9]);
    assert_eq!(rt; body_fault(PartCode::VcpuXsave, empty), None);
    read_body(guest, PartCode::VcpuXsave, empty)?;
    assert_eq!(rt; guest.next_part(None), None);
    let xsave = hidden(&XSAVE);
    assert_eq!(rt; body_fault(PartCode::VcpuXsave, xsave), None);
    read_body(guest, PartCode::VcpuXsave, xsave)?;
    let info = page(5);
    assert_eq!(rt; body_fault(PartCode::SharedInfo, &info), None);
    read_body(guest, PartCode::SharedInfo, &info)?;
    has(
        rt,
        guest,
        &[(key(6, 3, 0), &XSAVE[8..]), (key(7, 0, 0), &info)],
    );
    Ok(())
}

#[test]
fn bodies_of_a_pv_guest(rt: HostRuntime) -> Result<(), Fail> {
    let mut guest = Guest::new(rt.alloc(), Kind::Pv);
    read_pv_bodies(&rt, &mut guest)
}

// The P2M frames of the frame numbers up to 1023, and then of those up to 511 again.
const P2M_FRAMES: [u8; 24] = [
    0, 0, 0, 0, 0xff, 3, 0, 0, 7, 0, 0, 0, 0, 0, 0, 0, 8, 0, 0, 0, 0, 0, 0, 0,
];

const FIRST_P2M_FRAME: [u8; 16] = [0, 0, 0, 0, 0xff, 1, 0, 0, 9, 0, 0, 0, 0, 0, 0, 0];

// Lists P2M frames, which have no fault.
fn list(rt: &impl Abort, guest: &mut Guest, body: &[u8]) -> Result<(), Fail> {
    assert!(rt; body.len() >= 8);
    assert_eq!(rt; p2m_fault(body), None);
    read_p2m(guest, body)?;
    Ok(())
}

fn list_again(rt: &impl Abort, guest: &mut Guest) -> Result<(), Fail> {
    list(rt, guest, hidden(&P2M_FRAMES))?;
    list(rt, guest, hidden(&FIRST_P2M_FRAME))?;
    assert_eq!(rt; guest.top(), 0x3ff);
    let listed = [9, 0, 0, 0, 0, 0, 0, 0, 8, 0, 0, 0, 0, 0, 0, 0];
    has(rt, guest, &[(key(3, 0, 0), &listed)]);
    Ok(())
}

#[test]
fn p2m_frames_are_listed_again(rt: HostRuntime) -> Result<(), Fail> {
    let mut guest = Guest::new(rt.alloc(), Kind::Pv);
    list_again(&rt, &mut guest)
}

// Adds pairs, which have no fault, to those of emulator 1 with index 2.
fn merge(rt: &impl Abort, alloc: Global, guest: &mut Guest, bytes: &[u8]) -> Result<(), Fail> {
    assert_eq!(rt; pairs_fault(bytes), None);
    merge_pairs(alloc, guest, 1, 2, bytes)?;
    Ok(())
}

fn merge_some(rt: &impl Abort, alloc: Global, guest: &mut Guest) -> Result<(), Fail> {
    merge(rt, alloc, guest, hidden(b""))?;
    assert_eq!(rt; guest.next_part(None), None);
    merge(rt, alloc, guest, hidden(b"b\0one\0c\0two\0"))?;
    merge(rt, alloc, guest, hidden(b"b\0three\0a\0\0"))?;
    merge(rt, alloc, guest, hidden(b""))?;
    let pairs = b"a\0\0b\0three\0c\0two\0";
    has(rt, guest, &[(key(258, 1, 2), pairs)]);
    Ok(())
}

#[test]
fn pairs_are_merged(rt: HostRuntime) -> Result<(), Fail> {
    let mut guest = Guest::new(rt.alloc(), Kind::Hvm);
    merge_some(&rt, rt.alloc(), &mut guest)
}
