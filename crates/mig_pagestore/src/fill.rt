ghost use Rattle.std.specs.Prelude.{List, ℕ};
ghost use Rattle.std.specs.declared.result.Result.{Result};
ghost use Rattle.mig_bytes.specs.declared.stop.Stop.{Stop};

use mig_bytes::Stop;

/// How a page comes from a source into its place.
pub trait Fill<S> {
    /// Why a page is refused.
    type Cause;

    /// What a call did: the source before and behind it, the bytes of the page, and the answer.
    ghost fills: { Self → S → S → List ℕ → Result (Unit {0}) (Stop Self.Cause) → Type 0 };

    /// Takes a page from the source. Behind an error the bytes that were written don't count.
    fn fill(&self, src: &mut S, page: &mut [u8; 4096]) -> Result<(), Stop<Self::Cause>>
        ensures { fills self.now src.old src.new page.new result };
}
