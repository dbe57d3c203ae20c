ghost use Rattle.std.specs.Prelude.{◌≡◌};
ghost use Rattle.mig_bytes.specs.Answers.{stop_of};

use crate::Stop;

/// Why an input isn't read: it is refused at a place for a cause, a read failed, or there is no memory.
#[derive(Clone, Copy, Debug, PartialEq, Eq)]
pub enum Answer<P, C> {
    Refused(P, C),
    ReadFault,
    Memory,
}

/// The answer for what stopped the reading.
pub fn answer_for<P: Copy, C: Copy>(stop: Stop<(P, C)>) -> Answer<P, C>
    ensures { stop_of result ≡ stop }
{
    match stop {
        Stop::Refused((place, cause)) => Answer::Refused(place, cause),
        Stop::ReadFault => Answer::ReadFault,
        Stop::Memory => Answer::Memory,
    }
}

/// The stop for an answer, which has the place and the cause as one.
pub fn stop_for<P: Copy, C: Copy>(answer: Answer<P, C>) -> Stop<(P, C)>
    ensures { result ≡ stop_of answer }
{
    match answer {
        Answer::Refused(place, cause) => Stop::Refused((place, cause)),
        Answer::ReadFault => Stop::ReadFault,
        Answer::Memory => Stop::Memory,
    }
}
