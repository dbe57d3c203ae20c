//! The guest image that keeps a guest as it stands in a machine.
//!
//! Responsible for: the guest image in its two versions, reading both, and writing version 2. What a host is, which one a
//! restored guest becomes and as which guest it is seen is left to mig_host, whose calls and laws are passed on. It knows
//! nothing of streams.
//!
//! What the layers above rely on: an image of either version is read as the host whose image it is, or refused at the place
//! of its first fault; of a host exactly its image of version 2 is written, in which no page is all zero.
#![tactic(auto)]

mod frame;
mod head;
mod hosted;
mod law;
mod read;
mod read_part;
mod version;
mod write;
mod zeros;

pub use hosted::{write_hosted, write_localised};
pub use law::{
    frames_ascend, guest_images_have_sizes, hosts_have_guest_images, image_is_judged,
    judged_is_image, one_image, zero_pages_are_left_out,
};
pub use mig_host::{
    Host, HostAnswer, SoundAnswer, guest_of, host_of, hosted_is_seen, hosted_is_sound,
    hosted_is_valid, hosted_p2m_frames_are_filled, hvm_hosted_is_seen, localise_counted,
};
pub use read::{ImageAnswer, read_host};
pub use version::GuestImageVersion;
pub use write::write_host;
