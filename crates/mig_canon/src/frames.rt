ghost use Rattle.std.specs.Prelude.{◌≡◌, true, length};
ghost use Rattle.mig_canon.specs.Common.{text_of, IsPageBuffer, Copies, CopyHasCause};
ghost use Rattle.mig_canon.specs.Canon.{frame_bodies, batches};

use mig_bytes::Sink;
use mig_records_pages::{CopyFailed, FrameSequence, MOST_ENTRIES, write_page_data};

/// The number of frames of a whole batch.
const BATCH: u64 = MOST_ENTRIES as u64;

/// Appends the records of all frames, through a buffer of pages.
pub(crate) fn write_frames<K: Sink, F: FrameSequence>(
    sink: &mut K,
    frames: &F,
    buffer: &mut [u8],
) -> Result<(), CopyFailed>
    requires { IsPageBuffer buffer.old }
    ensures bytes { F.told frames.now ≡ true → Copies (text_of (frame_bodies (F.frames_from frames.now 0) (batches (F.frames_from frames.now 0)))) (K.written sink.old) (K.written sink.new) result }
    ensures cause { CopyHasCause (K.faults sink.old) (K.faults sink.new) (F.fails frames.now) result }
{
    let total = frames.frame_count();
    let mut from = 0;
    for k in 0..total.div_ceil(BATCH) {
        let count = BATCH.min(total - BATCH * k);
        match write_page_data(sink, frames, buffer, from, count as u32) {
            Ok(next) => from = next,
            Err(failed) => return Err(failed),
        }
    }
    Ok(())
}
