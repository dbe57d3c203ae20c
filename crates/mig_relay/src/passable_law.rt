ghost use Rattle.mig_relay.specs.PassableLaws.{NothingElseIsLeftOut, AcceptedPasses, RefusedIsOpenRefused, LeftOutIsNotTold, FrontsPass, NoPrefixPasses, UnfinishedIsNotAccepted};

/// An image is judged as one of which the whole guest isn't asked, and then the guest is asked.
pub fn nothing_else_is_left_out()
    ensures { NothingElseIsLeftOut }
{}

/// Accepted bytes are passable.
pub fn accepted_passes()
    ensures { AcceptedPasses }
{}

/// A refusal for a cause that isn't left out stands.
pub fn refused_is_open_refused()
    ensures { RefusedIsOpenRefused }
{}

/// A cause that is left out is never told.
pub fn left_out_is_not_told()
    ensures { LeftOutIsNotTold }
{}

/// Passable bytes stay so, whatever follows them.
pub fn fronts_pass()
    ensures { FrontsPass }
{}

/// No proper prefix of passable bytes is passable.
pub fn no_prefix_passes()
    ensures { NoPrefixPasses }
{}

/// No front of bytes that are refused, or end inside a part, is accepted.
pub fn unfinished_is_not_accepted()
    ensures { UnfinishedIsNotAccepted }
{}
