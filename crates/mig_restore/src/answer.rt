use mig_bytes::Answer;
use mig_headers::{Cause, Place};

/// Why an image isn't read.
pub type StreamAnswer = Answer<Place, Cause>;
