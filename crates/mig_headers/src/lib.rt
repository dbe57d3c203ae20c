//! The headers of a stream, its kinds of guest and record types, and every place and cause of a refusal.
//!
//! Responsible for:
//!
//! - which bytes are the image header and the domain header of a libxc migration stream and the header of a libxl
//!   stream, and which header a writer makes
//! - which record types there are, with the kinds of guest and the body lengths that they may have
//! - which bytes are pairs of texts in canonical form (a definition alone: mig_policy has the test)
//! - which places and causes there are, of a stream, a legacy stream, a guest image and an unsound host, and their
//!   numbers
//! - which of several causes is named: the one of the least number, and of one cause at several places the first
//!
//! Left to others: which bytes have a cause (the room that judges them), and how one is printed (mig_headers_text).
//! It takes no memory, reads from no source, and knows no record's body.
//!
//! What the layers above rely on:
//!
//! - Each part of a header is answered by its first fault in the order of the causes, and by none exactly where its
//!   bytes spell such a header.
//! - What a header is written as is read again.
//! - A record type's row decides every question about it.
#![tactic(auto)]

mod fault;
mod header;
mod image_fault;
mod kind;
mod laws;
mod legacy_fault;
mod record_type;
mod unsound;

pub use fault::{Cause, ContextFault, Place};
pub use header::{DomainHeader, ImageHeader, LibxlHeader};
pub use image_fault::{ImageCause, ImagePlace};
pub use kind::Kind;
pub use laws::{
    canonical_pairs_law, context_law, domain_header_laws, image_header_laws, libxl_header_laws,
    record_number_law,
};
pub use legacy_fault::{LegacyCause, LegacyPlace};
pub use record_type::{
    END, HVM_CONTEXT, MOST_BODY, MOST_POLICY_ENTRIES, PAGE_DATA, RecordType, STATIC_DATA_END,
    VCPU_LIMIT, VERIFY, X86_PV_INFO, X86_PV_P2M_FRAMES, X86_PV_VCPU_BASIC, X86_PV_VCPU_EXTENDED,
    X86_PV_VCPU_MSRS, X86_PV_VCPU_XSAVE, is_optional,
};
pub use unsound::Unsound;
