ghost use Rattle.std.specs.Prelude.{◌≤◌, IfOk};
ghost use Rattle.mig_test_machine.specs.Common.{most_saved_width};

use mig_bytes::MemSource;
use mig_image::{Host, read_host};
use std::alloc::Global;
use std::test::Fail;

// The greatest width of a host that is read.
const WIDEST: u64 = 1 << 28;

// The image of a PV host with the width 16, whose frames 1 to 9 have the machine frames 5000 (136, 19) to 5008: bytes, and the
// byte that is behind them so many times. Frame 2 is a P2M frame, 4 a table of level 1, and so on up to 7, the root; the
// fields of the vCPU that are used name frames 1, 3 and 7.
const WORKED: [(&[u8], u8, usize); 16] = [
    (
        &[
            88, 71, 73, 77, 65, 71, 69, 49, 1, 0, 0, 0, 0, 0, 0, 0, 16, 0, 0, 0, 0, 0, 0, 0, 9, 0,
            0, 0, 0, 0, 0, 0, 1, 0, 0, 0, 0, 0, 0, 0, 136, 19, 0, 0, 0, 0, 0, 0,
        ],
        1,
        4096,
    ),
    (
        &[
            2, 0, 0, 0, 0, 0, 0, 0, 137, 19, 0, 0, 0, 0, 0, 0, 255, 255, 255, 255, 255, 255, 255,
            255, 136, 19, 0, 0, 0, 0, 0, 0, 137, 19, 0, 0, 0, 0, 0, 0, 138, 19, 0, 0, 0, 0, 0, 0,
            139, 19, 0, 0, 0, 0, 0, 0, 140, 19, 0, 0, 0, 0, 0, 0, 141, 19, 0, 0, 0, 0, 0, 0, 142,
            19, 0, 0, 0, 0, 0, 0, 143, 19, 0, 0, 0, 0, 0, 0, 144, 19, 0, 0, 0, 0, 0, 0,
        ],
        255,
        4016,
    ),
    (
        &[3, 0, 0, 0, 0, 0, 0, 0, 138, 19, 0, 0, 0, 0, 0, 0],
        3,
        4096,
    ),
    (
        &[
            4, 0, 0, 16, 0, 0, 0, 0, 139, 19, 0, 0, 0, 0, 0, 0, 0, 0, 0, 0, 0, 0, 0, 0, 103, 240,
            56, 1, 0, 0, 0, 0,
        ],
        0,
        56,
    ),
    (&[0, 208, 234, 13, 0, 0, 0, 0], 0, 4016),
    (
        &[
            5, 0, 0, 32, 0, 0, 0, 0, 140, 19, 0, 0, 0, 0, 0, 0, 103, 176, 56, 1, 0, 0, 0, 0,
        ],
        0,
        4088,
    ),
    (
        &[
            6, 0, 0, 48, 0, 0, 0, 0, 141, 19, 0, 0, 0, 0, 0, 0, 103, 192, 56, 1, 0, 0, 0, 0,
        ],
        0,
        4088,
    ),
    (
        &[
            7, 0, 0, 192, 0, 0, 0, 0, 142, 19, 0, 0, 0, 0, 0, 0, 103, 208, 56, 1, 0, 0, 0, 0,
        ],
        0,
        4088,
    ),
    (
        &[8, 0, 0, 0, 0, 0, 0, 0, 143, 19, 0, 0, 0, 0, 0, 0],
        8,
        4096,
    ),
    (
        &[9, 0, 0, 0, 0, 0, 0, 0, 144, 19, 0, 0, 0, 0, 0, 0],
        9,
        4096,
    ),
    (
        &[
            3, 0, 0, 0, 0, 0, 0, 0, 3, 0, 0, 0, 0, 0, 0, 0, 0, 0, 0, 0, 8, 0, 0, 0, 2, 0, 0, 0, 0,
            0, 0, 0, 4, 0, 0, 0, 0, 0, 0, 0, 0, 0, 0, 0, 48, 20, 0, 0,
        ],
        0,
        616,
    ),
    (&[136, 19, 0, 0, 0, 0, 0, 0], 0, 4208),
    (&[138, 19, 0, 0, 0, 0, 0, 0], 0, 120),
    (&[0, 2, 0, 0, 0, 0, 0, 0], 0, 40),
    (&[0, 224, 56, 1, 0, 0, 0, 0], 0, 152),
    (&[7, 0, 0, 0, 0, 0, 0, 0, 0, 0, 0, 0, 0, 16, 0, 0], 0, 4096),
];

// What is before the 2048 frames of an HVM host with this width.
const BEFORE: [u8; 32] = [
    88, 71, 73, 77, 65, 71, 69, 49, 2, 0, 0, 0, 0, 0, 0, 0, 0, 8, 0, 0, 0, 0, 0, 0, 0, 8, 0, 0, 0,
    0, 0, 0,
];

// What is behind them: the smallest context.
const BEHIND: [u8; 64] = [
    1, 0, 0, 0, 0, 0, 0, 0, 9, 0, 0, 0, 0, 0, 0, 0, 0, 0, 0, 0, 40, 0, 0, 0, 1, 0, 0, 0, 24, 0, 0,
    0, 17, 17, 17, 17, 17, 17, 17, 17, 17, 17, 17, 17, 17, 17, 17, 17, 17, 17, 17, 17, 17, 17, 17,
    17, 0, 0, 0, 0, 0, 0, 0, 0,
];

// The tables, about which a proof is to know nothing.
fn worked_rows() -> &'static [(&'static [u8], u8, usize)] {
    &WORKED
}

fn before() -> &'static [u8] {
    &BEFORE
}

fn behind() -> &'static [u8] {
    &BEHIND
}

// The context alone, behind what an image has in front of it.
pub(crate) fn context() -> &'static [u8] {
    &BEHIND[24..]
}

// A page of zeros, about which a proof is to know nothing.
fn zeros() -> [u8; 4096] {
    [0; 4096]
}

// Appends bytes, and then a byte so many times.
fn append_row(
    bytes: &mut Vec<u8>,
    alloc: Global,
    front: &[u8],
    byte: u8,
    times: usize,
) -> Result<(), Fail> {
    bytes.extend_from_slice(front)?;
    bytes.extend_from_slice(&vec![in alloc; byte; times]?)?;
    Ok(())
}

fn append_worked(bytes: &mut Vec<u8>, alloc: Global) -> Result<(), Fail> {
    for (front, byte, times) in worked_rows() {
        append_row(bytes, alloc, front, *byte, *times)?;
    }
    Ok(())
}

// Appends so many frames from 0 on, without a table: the machine frame is one more than the number, and the page is zeros.
fn append_frames(bytes: &mut Vec<u8>, count: u32) -> Result<(), Fail> {
    for pfn in 0..count {
        bytes.extend_from_slice(&u64::from(pfn).to_le_bytes())?;
        bytes.extend_from_slice(&(u64::from(pfn) + 1).to_le_bytes())?;
        bytes.extend_from_slice(&zeros())?;
    }
    Ok(())
}

fn append_wide(bytes: &mut Vec<u8>) -> Result<(), Fail> {
    bytes.extend_from_slice(before())?;
    append_frames(bytes, 2048)?;
    bytes.extend_from_slice(behind())?;
    Ok(())
}

// The host of an image.
fn host_in(alloc: Global, image: Vec<u8>) -> Result<Host, Fail>
    ensures narrow { IfOk result (λ host. host.host.width ≤ most_saved_width) }
{
    let mut src = MemSource::new(image, Vec::new(alloc), Vec::new(alloc));
    match read_host(alloc, &mut src, WIDEST) {
        Ok(host) => Ok(host),
        Err(_) => Err("the image isn't read".into()),
    }
}

// The PV host of 46368 bytes.
pub(crate) fn worked(alloc: Global) -> Result<Host, Fail>
    ensures narrow { IfOk result (λ host. host.host.width ≤ most_saved_width) }
{
    let mut image = Vec::new(alloc);
    append_worked(&mut image, alloc)?;
    host_in(alloc, image)
}

// An HVM host of 2048 frames.
pub(crate) fn wide(alloc: Global) -> Result<Host, Fail>
    ensures narrow { IfOk result (λ host. host.host.width ≤ most_saved_width) }
{
    let mut image = Vec::new(alloc);
    append_wide(&mut image)?;
    host_in(alloc, image)
}
