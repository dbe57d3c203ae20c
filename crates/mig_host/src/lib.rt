//! Hosts: a guest as it stands in a machine, with the machine frame of each of its frames.
//!
//! Responsible for: hosts (a frame number's type, page and machine frame, raw parts, and room for spare frames), which host
//! a restored guest becomes, the changes of a host, whether a host can be seen as a guest and as which. Left to others: the
//! map from machine frames (mig_host_m2p), and guest images (mig_image). It knows nothing of streams.
//!
//! What the layers above rely on: a host is always valid, through each change too, and a change takes no memory; a restored
//! guest is the host whose machine frames are counted up from the base, which is sound and is seen as this guest; and a
//! sound host is seen as a whole guest in blank form.
#![tactic(auto)]

mod changes;
mod host;
mod law;
mod machine_frames;
mod restore;
mod seeing;
mod sound;

pub use host::Host;
pub use law::{
    hosted_is_seen, hosted_is_sound, hosted_is_valid, hosted_p2m_frames_are_filled,
    hvm_hosted_is_seen,
};
pub use restore::{HostAnswer, host_of, is_outside, localise_counted};
pub use seeing::guest_of;
pub use sound::SoundAnswer;
