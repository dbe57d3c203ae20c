//! Refusals of each form of input in the words of the form.
//!
//! Responsible for:
//!
//! - the relations of an input with the place and the cause for which it is refused, and what is left
//! - these of a libxc image (`libxc`), of a stream that is a bare image or an image inside a libxl stream (`stream`),
//!   of a legacy stream (`legacy`), and of the guest image of a host (`image_file`)
//! - the laws that join each with the judging of mig_restore_form, mig_libxl_form, mig_legacy and mig_image, and the
//!   causes of a whole guest and of a page with what mig_pvtables answers
//!
//! It has no code of its own. An image is a part of a stream; a guest image is none.
#![tactic(auto)]

mod image_file;
mod legacy;
mod libxc;
mod stream;

pub use image_file::{
    image_file_accepted_or_refused, image_file_causes_ascend, image_file_front_is_spelled,
    image_file_never_both, image_file_one_refusal, image_file_place_is_of_part,
    image_file_refusals_agree, image_file_tables_say, image_file_tests_say,
};
pub use legacy::{
    legacy_accepted_or_refused, legacy_causes_ascend, legacy_computed_causes_stand,
    legacy_never_both, legacy_one_refusal, legacy_refusals_agree, legacy_tables_say,
    legacy_tests_say,
};
pub use libxc::{
    libxc_accepted_or_refused, libxc_causes_stand, libxc_never_both, libxc_one_refusal,
    libxc_refusals_agree, page_answers_the_least_fault, whole_answers_the_least_fault,
};
pub use stream::{
    stream_accepted_or_refused, stream_causes_ascend, stream_never_both, stream_one_refusal,
    stream_refusals_agree, stream_stores_are_merged, stream_tests_say,
};
