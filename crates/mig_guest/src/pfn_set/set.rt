ghost use Rattle.std.specs.Prelude.{◌≡◌, ◌/◌, ◌<◌, length};
ghost use Rattle.mig_guest.specs.Pfns.{pfns_of_words, no_pfns, with_pfn, joined};
ghost use Rattle.mig_guest.specs.Changes.{put_pfn, without_pfn};

/// Whether a frame number is a member.
pub fn contains(words: &[u64], pfn: u64) -> bool
    requires { pfn / 64 < length words.now }
    ensures { result ≡ pfns_of_words words.now pfn }
{
    (words[(pfn / 64) as usize] >> (pfn % 64)) % 2 == 1
}

/// A frame number becomes a member.
#[tactic(auto, using(crate::proofs::Changed::inserted))]
pub fn insert(words: &mut [u64], pfn: u64)
    requires { pfn / 64 < length words.old }
    ensures { pfns_of_words words.new ≡ with_pfn pfn (pfns_of_words words.old) }
{
    words[(pfn / 64) as usize] |= 1 << (pfn % 64);
}

/// A frame number is no longer a member.
#[tactic(auto, using(crate::proofs::Changed::removed))]
pub fn remove(words: &mut [u64], pfn: u64)
    requires { pfn / 64 < length words.old }
    ensures { pfns_of_words words.new ≡ without_pfn pfn (pfns_of_words words.old) }
{
    words[(pfn / 64) as usize] &= !(1 << (pfn % 64));
}

/// No frame number is a member any more.
#[tactic(auto, using(crate::proofs::Changed::cleared))]
pub fn clear(words: &mut [u64])
    ensures { pfns_of_words words.new ≡ no_pfns }
{
    words.fill(0);
}

/// A frame number becomes a member, or is no longer one.
pub fn put(words: &mut [u64], pfn: u64, inside: bool)
    requires { pfn / 64 < length words.old }
    ensures { pfns_of_words words.new ≡ put_pfn pfn inside (pfns_of_words words.old) }
{
    if inside {
        insert(words, pfn);
    } else {
        remove(words, pfn);
    }
}

/// The members of the other set become members.
pub fn join(words: &mut [u64], other: &[u64])
    requires { length other.now ≡ length words.old }
    ensures { pfns_of_words words.new ≡ joined (pfns_of_words words.old) (pfns_of_words other.now) }
{
    for index in 0..words.len() {
        words[index] |= other[index];
    }
}
