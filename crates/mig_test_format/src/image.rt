ghost use Rattle.std.specs.Prelude.{◌≤◌};
ghost use Rattle.mig_guest.specs.Hosts.{most_width};

use mig_bytes::{MemSink, MemSource};
use mig_guest::{Guest, PartKey};
use mig_headers::{ImageCause, ImagePlace, Kind};
use mig_image::{Host, ImageAnswer, guest_of, read_host, write_host};
use mig_pagetypes::PageType;
use std::alloc::Global;
use std::process::Abort;
use std::test::Fail;

// The image of an HVM host with the width 10, up to the page of its last frame, in version 1: the head, and the frames 2
// (BROKEN), 4 (XALLOC) and 9, with the machine frames 256 to 258.
const ONE: [u8; 80] = [
    88, 71, 73, 77, 65, 71, 69, 49, 2, 0, 0, 0, 0, 0, 0, 0, 10, 0, 0, 0, 0, 0, 0, 0, 3, 0, 0, 0, 0,
    0, 0, 0, 2, 0, 0, 208, 0, 0, 0, 0, 0, 1, 0, 0, 0, 0, 0, 0, 4, 0, 0, 224, 0, 0, 0, 0, 1, 1, 0,
    0, 0, 0, 0, 0, 9, 0, 0, 0, 0, 0, 0, 0, 2, 1, 0, 0, 0, 0, 0, 0,
];

// The same in version 2.
const TWO: [u8; 80] = [
    88, 71, 73, 77, 65, 71, 69, 50, 2, 0, 0, 0, 0, 0, 0, 0, 10, 0, 0, 0, 0, 0, 0, 0, 3, 0, 0, 0, 0,
    0, 0, 0, 2, 0, 0, 0, 0, 0, 0, 208, 0, 1, 0, 0, 0, 0, 0, 0, 4, 0, 0, 0, 0, 0, 0, 224, 1, 1, 0,
    0, 0, 0, 0, 0, 9, 0, 0, 0, 0, 0, 0, 0, 2, 1, 0, 0, 0, 0, 0, 0,
];

// What follows that page in both: two parts, a context, behind whose END there stand 4 bytes, and parameter 2.
const PARTS: [u8; 104] = [
    2, 0, 0, 0, 0, 0, 0, 0, 9, 0, 0, 0, 0, 0, 0, 0, 0, 0, 0, 0, 56, 0, 0, 0, 1, 0, 0, 0, 24, 0, 0,
    0, 17, 17, 17, 17, 17, 17, 17, 17, 17, 17, 17, 17, 17, 17, 17, 17, 17, 17, 17, 17, 17, 17, 17,
    17, 2, 0, 0, 0, 4, 0, 0, 0, 34, 34, 34, 34, 0, 0, 7, 0, 5, 0, 0, 0, 238, 238, 238, 238, 10, 0,
    0, 0, 2, 0, 0, 0, 0, 0, 0, 0, 8, 0, 0, 0, 210, 210, 210, 210, 210, 210, 210, 210,
];

// That context up to its END, of which nothing but zeros is left in a guest.
const CUT: [u8; 52] = [
    1, 0, 0, 0, 24, 0, 0, 0, 17, 17, 17, 17, 17, 17, 17, 17, 17, 17, 17, 17, 17, 17, 17, 17, 17,
    17, 17, 17, 17, 17, 17, 17, 2, 0, 0, 0, 4, 0, 0, 0, 34, 34, 34, 34, 0, 0, 0, 0, 0, 0, 0, 0,
];

// A page, about which a proof is to know nothing; so of the texts.
fn page() -> [u8; 4096] {
    [0x77; 4096]
}

fn one() -> &'static [u8] {
    &ONE
}

fn two() -> &'static [u8] {
    &TWO
}

fn parts() -> &'static [u8] {
    &PARTS
}

fn cut() -> &'static [u8] {
    &CUT
}

const CONTEXT: PartKey = PartKey {
    code: 9,
    key1: 0,
    key2: 0,
};

const PARAMETER: PartKey = PartKey {
    code: 10,
    key1: 2,
    key2: 0,
};

const NEVER: u64 = u64::MAX;

// The image whose head and frames these are.
fn image_of(alloc: Global, front: &[u8]) -> Result<Vec<u8>, Fail> {
    let mut bytes = Vec::new(alloc);
    bytes.extend_from_slice(front)?;
    bytes.extend_from_slice(&page())?;
    bytes.extend_from_slice(parts())?;
    Ok(bytes)
}

// What reading that image comes to, where hosts up to this width are read and the read of this number fails.
fn read(
    alloc: Global,
    front: &[u8],
    widest: u64,
    fails: u64,
) -> Result<Result<Host, ImageAnswer>, Fail>
    requires { widest ≤ most_width }
{
    let fails = vec![in alloc; fails; 1]?;
    let mut src = MemSource::new(image_of(alloc, front)?, Vec::new(alloc), fails);
    Ok(read_host(alloc, &mut src, widest))
}

fn host_in(alloc: Global, front: &[u8]) -> Result<Host, Fail> {
    match read(alloc, front, 10, NEVER)? {
        Ok(host) => Ok(host),
        Err(_) => Err("the image is refused".into()),
    }
}

// What the host is asked.
fn is_read(rt: &impl Abort, host: &Host) {
    assert_eq!(rt;
        (host.kind(), host.width(), host.frames()),
        (Kind::Hvm, 10, 3)
    );
    assert_eq!(rt; host.frame(4), Some(PageType::Xalloc));
    assert!(rt; host.page(9) == Some(&page()));
    assert_eq!(rt; host.next_frame(5), Some(9));
    assert_eq!(rt; host.part(PARAMETER), Some([0xd2; 8].as_slice()));
    assert_eq!(rt; host.next_part(Some(CONTEXT)), Some(PARAMETER));
}

// Whether a host is written whole, where the write of this number fails. The bytes have to be those of its image in version
// 2, or of a front of it where a write failed.
fn is_written(alloc: Global, host: &Host, fails: u64) -> Result<bool, Fail> {
    let newer = image_of(alloc, two())?;
    let mut sink = MemSink::new(alloc, vec![in alloc; fails; 1]?);
    let is_done = write_host(&mut sink, host).is_ok();
    if !newer.starts_with(sink.bytes()) || is_done != (sink.bytes().len() == newer.len()) {
        return Err("other bytes are written".into());
    }
    Ok(is_done)
}

fn is_written_whole(rt: &impl Abort, alloc: Global, host: &Host) -> Result<(), Fail> {
    let is_done = is_written(alloc, host, NEVER)?;
    assert!(rt; is_done);
    Ok(())
}

fn is_written_in_part(rt: &impl Abort, alloc: Global, host: &Host) -> Result<(), Fail> {
    let is_done = is_written(alloc, host, 3)?;
    assert!(rt; !is_done);
    Ok(())
}

// The host of the image with this front is read, and written in version 2.
fn is_read_and_written(rt: &impl Abort, alloc: Global, front: &[u8]) -> Result<(), Fail> {
    let host = host_in(alloc, front)?;
    is_read(rt, &host);
    is_written_whole(rt, alloc, &host)
}

#[test]
fn an_image_of_version_1_is_read_and_written(rt: HostRuntime) -> Result<(), Fail> {
    is_read_and_written(&rt, rt.alloc(), one())
}

#[test]
fn an_image_of_version_2_is_read_and_written(rt: HostRuntime) -> Result<(), Fail> {
    is_read_and_written(&rt, rt.alloc(), two())
}

#[test]
fn a_write_of_an_image_fails(rt: HostRuntime) -> Result<(), Fail> {
    let host = host_in(rt.alloc(), two())?;
    is_written_in_part(&rt, rt.alloc(), &host)
}

#[test]
fn a_read_of_an_image_fails(rt: HostRuntime) -> Result<(), Fail> {
    for fails in 0..10 {
        let answer = read(rt.alloc(), one(), 10, fails)?;
        assert_eq!(rt; answer.err(), Some(ImageAnswer::ReadFault), "read {fails}");
    }
    Ok(())
}

#[test]
fn hosts_wider_than_asked_for_are_refused(rt: HostRuntime) -> Result<(), Fail> {
    let answer = read(rt.alloc(), two(), 9, NEVER)?;
    let refused = ImageAnswer::Refused(ImagePlace::Head, ImageCause::Width(10));
    assert_eq!(rt; answer.err(), Some(refused));
    Ok(())
}

// What the guest is asked.
fn is_seen(rt: &impl Abort, guest: &Guest) {
    assert_eq!(rt; (guest.kind(), guest.frames()), (Kind::Hvm, 3));
    assert_eq!(rt; guest.frame(2), Some(PageType::Broken));
    assert!(rt; guest.page(9) == Some(&page()));
    assert_eq!(rt; guest.part(PARAMETER), Some([0xd2; 8].as_slice()));
    assert_eq!(rt; guest.part(CONTEXT), Some(cut()));
}

fn is_seen_as_a_guest(rt: &impl Abort, alloc: Global, host: &Host) -> Result<(), Fail> {
    match guest_of(alloc, host) {
        Ok(guest) => {
            is_seen(rt, &guest);
            Ok(())
        }
        Err(_) => Err("no guest is seen".into()),
    }
}

#[test]
fn an_hvm_host_is_seen_as_a_guest(rt: HostRuntime) -> Result<(), Fail> {
    let host = host_in(rt.alloc(), two())?;
    is_seen_as_a_guest(&rt, rt.alloc(), &host)
}
