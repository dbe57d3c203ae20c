ghost use Rattle.std.specs.Prelude.{◌≡◌, ◌≤◌, ◌<◌, ◌^◌, ℕ, Option, Some, IfSome, true};
ghost use Rattle.mig_pvtables.specs.Common.{gdt_ents};
ghost use Rattle.mig_pvtables.specs.VcpuContexts.{Usage, field_value, is_used, is_used_somewhere, says_where};

use crate::vcpu::{host_frame, vcpu_frame};

/// Frame numbers (PFN) and their machine frames (MFN), one to one.
pub trait Frames {
    /// The frame number that has a machine frame.
    ghost pfns: { Self → ℕ → Option ℕ };

    /// The machine frame of a frame number.
    ghost mfns: { Self → ℕ → Option ℕ };

    /// The frame number that has this machine frame.
    fn pfn_of(&self, mfn: u64) -> Option<u64>
        ensures value { result ≡ pfns self.now mfn }
        ensures back { IfSome result (λ pfn. mfns self.now pfn ≡ Some mfn) };

    /// The machine frame of a frame number. Each is below 2^40.
    fn mfn_of(&self, pfn: u64) -> Option<u64>
        ensures value { result ≡ mfns self.now pfn }
        ensures back { IfSome result (λ mfn. pfns self.now mfn ≡ Some pfn) }
        ensures small { IfSome result (λ mfn. mfn < 2 ^ 40) };

    /// Does nothing. Frame numbers and machine frames are one to one, whether or not they were looked up.
    fn one_to_one(&self)
        ensures there { (mfn pfn : ℕ) → pfns self.now mfn ≡ Some pfn → mfns self.now pfn ≡ Some mfn }
        ensures back { (mfn pfn : ℕ) → mfns self.now pfn ≡ Some mfn → pfns self.now mfn ≡ Some pfn }
        ensures small { (mfn pfn : ℕ) → mfns self.now pfn ≡ Some mfn → mfn < 2 ^ 40 };
}

/// The other names of frames, and what says a frame by its first name.
pub trait FrameNames {
    /// The other name of a frame.
    ghost names: { Self → ℕ → Option ℕ };

    /// Which fields of a vCPU's context are used where frames have their first names.
    ghost used: { Self → Usage };

    /// The other name of a frame.
    fn name_of(&self, frame: u64) -> Option<u64>
        ensures { result ≡ names self.now frame };

    /// The frame that a field says, where the vCPU of this id uses the field.
    fn said_by(&self, context: &[u8; 5168], id: u32, field: u8) -> Option<u64>
        requires { field ≤ 18 }
        ensures said { result ≡ says_where (used self.now) id context.now field }
        ensures used { IfSome result (λ _. is_used_somewhere id (gdt_ents context.now) field (field_value context.now field) ≡ true) };
}

/// Machine frames in place of the frame numbers of a stream.
#[derive(Drop)]
pub struct ToMachine<'a, F> {
    pub frames: &'a F,
}

impl<F: Frames> FrameNames for ToMachine<'_, F> {
    ghost names = { λ to. F.mfns to.frames.now };

    ghost used = { λ _. is_used };

    fn name_of(&self, pfn: u64) -> Option<u64> {
        self.frames.mfn_of(pfn)
    }

    fn said_by(&self, context: &[u8; 5168], id: u32, field: u8) -> Option<u64> {
        vcpu_frame(context, id, field)
    }
}

/// Frame numbers in place of the machine frames of a host.
#[derive(Drop)]
pub struct ToStream<'a, F> {
    pub frames: &'a F,
}

impl<F: Frames> FrameNames for ToStream<'_, F> {
    ghost names = { λ to. F.pfns to.frames.now };

    ghost used = { λ _. is_used_somewhere };

    fn name_of(&self, mfn: u64) -> Option<u64> {
        self.frames.pfn_of(mfn)
    }

    fn said_by(&self, context: &[u8; 5168], id: u32, field: u8) -> Option<u64> {
        host_frame(context, id, field)
    }
}
