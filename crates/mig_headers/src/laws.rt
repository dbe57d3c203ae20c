ghost use Rattle.mig_headers.specs.Contexts.{ContextsAreSpelled};
ghost use Rattle.mig_headers.specs.HeaderLaws.{ImageHeaderIsSpelled, DomainHeaderIsSpelled, LibxlHeaderIsSpelled, ImageHeadersAreReadBack, DomainHeadersAreReadBack, LibxlHeadersAreReadBack};
ghost use Rattle.mig_headers.specs.Pairs.{CanonicalPairsAreComputed};
ghost use Rattle.mig_headers.specs.RecordTypes.{NumbersAreInverse};

/// Where the two parts of an image header have no fault, and what of a header is written is read again.
pub fn image_header_laws()
    ensures spelled { ImageHeaderIsSpelled }
    ensures read_back { ImageHeadersAreReadBack }
{}

/// Where a domain header has no fault, and what of a header is written is read again.
#[tactic(auto, using(crate::proofs::HeaderLaws::domain_is_spelled, crate::proofs::HeaderLaws::domain_is_read_back))]
pub fn domain_header_laws()
    ensures spelled { DomainHeaderIsSpelled }
    ensures read_back { DomainHeadersAreReadBack }
{}

/// Where the two parts of a libxl header have no fault, and what of a header is written is read again.
pub fn libxl_header_laws()
    ensures spelled { LibxlHeaderIsSpelled }
    ensures read_back { LibxlHeadersAreReadBack }
{}

/// A record type's number is that of no other type, and leads back to it.
#[tactic(auto, using(crate::proofs::RecordNumbers::numbers_are_inverse))]
pub fn record_number_law()
    ensures { NumbersAreInverse }
{}

/// The test of bytes for pairs in canonical form holds exactly where they spell such pairs.
#[tactic(auto, using(crate::proofs::PairTexts::canonical_pairs_are_computed))]
pub fn canonical_pairs_law()
    ensures { CanonicalPairsAreComputed }
{}

/// A chain without fault is exactly one that is spelled as entries, the header first, and END; the scan answers where
/// END stands.
pub fn context_law()
    ensures { ContextsAreSpelled }
{}
