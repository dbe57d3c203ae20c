ghost use Rattle.mig_policy.specs.PairFaults.{FirstFaultIsComputed};
ghost use Rattle.mig_policy.specs.PairMaps.{PairsAreRead, TextsAreCanonical, MapsAreOfPairs, SomeBytesAreSomePairs, AddedPairsDecide};

/// The first fault is unique, and bytes without one spell pairs. The text of a map of pairs is canonical, and says the
/// map. Such maps grow by bytes without fault alone, and have a text where there were bytes. Where pairs are added, the
/// last of a key decides.
pub fn pairs_laws()
    ensures faults { FirstFaultIsComputed }
    ensures read { PairsAreRead }
    ensures canonical { TextsAreCanonical }
    ensures maps { MapsAreOfPairs }
    ensures some { SomeBytesAreSomePairs }
    ensures added { AddedPairsDecide }
{}
