ghost use Rattle.std.specs.Prelude.{◌≡◌, ◌<◌, ◌^◌, ℕ, Some};
ghost use Rattle.mig_host_view.specs.RenamedContexts.{renamed_context};

use mig_pvtables::{ContextStep, FIELDS, FrameNames, put_vcpu_frame};

/// Puts the other name of each frame that vCPU `id` uses in its place, where it has one.
fn rename_context<N: FrameNames>(context: &mut [u8; 5168], id: u32, names: &N)
    requires { (n name : ℕ) → N.names names.now n ≡ Some name → name < 2 ^ 40 }
    ensures { context.new ≡ renamed_context (N.used names.now) (N.names names.now) id context.old }
{
    for field in 0..FIELDS {
        if let Some(frame) = names.said_by(context, id, field) {
            if let Some(name) = names.name_of(frame) {
                put_vcpu_frame(context, id, field, name);
            }
        }
    }
}

/// Other names are in place of frames in contexts.
#[derive(Drop)]
pub(crate) struct Renaming<'a, N> {
    pub(crate) names: &'a N,
}

impl<N: FrameNames> ContextStep for Renaming<'_, N> {
    ghost contexts = { λ step. renamed_context (N.used step.names.now) (N.names step.names.now) };

    ghost can_change = { λ step. (n name : ℕ) → N.names step.names.now n ≡ Some name → name < 2 ^ 40 };

    fn change_context(&self, context: &mut [u8; 5168], id: u32) {
        rename_context(context, id, self.names);
    }
}
