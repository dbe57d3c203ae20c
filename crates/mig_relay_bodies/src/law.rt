ghost use Rattle.mig_relay_bodies.specs.Laws.{BodiesAreParts};

/// Behind a head without fault the body of any record but a PAGE_DATA is a part of the input, with the causes of the whole
/// body.
pub fn bodies_are_parts()
    ensures { BodiesAreParts }
{}
