ghost use Rattle.std.specs.Prelude.{ℕ, List, Bool};
ghost use Rattle.std.specs.declared.option.Option.{Option};
ghost use Rattle.mig_dirtysave.specs.Common.{Appends, AppendsPart, Kind, Record, headers, WroteAll, WroteSome, opening_text};
ghost use Rattle.mig_dirtysave.specs.Unended.{IsUnended};
ghost use Rattle.mig_dirtysave.specs.Unread.{HasNoStream, WroteNoStream, EndedImage};

/// Bytes of a stream whose outermost END isn't whole are no accepted stream, and begin with none.
pub fn unended_has_no_stream()
    ensures { (bytes : List ℕ) → IsUnended bytes → HasNoStream bytes }
{}

/// Where a bare image wasn't ended, no front of what was written is an accepted stream. Written was a part of its
/// headers; its headers and records without END; or these and a part of one more record, which may be END.
pub fn unended_image_is_no_stream()
    ensures headers { (start now : Option (List ℕ)) (kind : Kind) → AppendsPart start now (headers kind) → WroteNoStream start now }
    ensures all { (start opened now : Option (List ℕ)) (kind : Kind) (rs : List Record) → Appends start opened (headers kind) → WroteAll opened now rs → WroteNoStream start now }
    ensures some { (start opened now : Option (List ℕ)) (kind : Kind) (rs : List Record) → Appends start opened (headers kind) → WroteSome opened now rs → WroteNoStream start now }
{}

/// The same of an image inside a libxl stream, whose header and LIBXC_CONTEXT may be written in part too.
pub fn unended_wrapped_image_is_no_stream()
    ensures opening { (start now : Option (List ℕ)) (legacy : Bool) → AppendsPart start now (opening_text legacy) → WroteNoStream start now }
    ensures headers { (start wrapped now : Option (List ℕ)) (legacy : Bool) (kind : Kind) → Appends start wrapped (opening_text legacy) → AppendsPart wrapped now (headers kind) → WroteNoStream start now }
    ensures all { (start wrapped opened now : Option (List ℕ)) (legacy : Bool) (kind : Kind) (rs : List Record) → Appends start wrapped (opening_text legacy) → Appends wrapped opened (headers kind) → WroteAll opened now rs → WroteNoStream start now }
    ensures some { (start wrapped opened now : Option (List ℕ)) (legacy : Bool) (kind : Kind) (rs : List Record) → Appends start wrapped (opening_text legacy) → Appends wrapped opened (headers kind) → WroteSome opened now rs → WroteNoStream start now }
{}

/// An image that is ended, inside a libxl stream that isn't: no front of what was written is an accepted stream. So it
/// is however many records are behind the image, and with a part of one more, which may be END. The image need not be
/// accepted itself.
pub fn unended_libxl_stream_is_no_stream()
    ensures all { (start wrapped closed now : Option (List ℕ)) (legacy : Bool) (rs : List Record) → Appends start wrapped (opening_text legacy) → EndedImage wrapped closed → WroteAll closed now rs → WroteNoStream start now }
    ensures some { (start wrapped closed now : Option (List ℕ)) (legacy : Bool) (rs : List Record) → Appends start wrapped (opening_text legacy) → EndedImage wrapped closed → WroteSome closed now rs → WroteNoStream start now }
{}
