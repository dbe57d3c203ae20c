ghost use Rattle.std.specs.Prelude.{◌≡◌, None, Some, Err, OnOk, IfOk};
ghost use Rattle.mig_headers.specs.declared.unsound.Unsound.{Unsound as Cause};
ghost use Rattle.mig_host_view.specs.Sound.{IsSound, unsoundness as cause_in};
ghost use Rattle.mig_host.specs.declared.sound.SoundAnswer.TheVariants as answers;

use crate::host::Host;
use mig_bytes::Memory;
use mig_headers::Unsound;
use mig_host_view::unsoundness;
use std::alloc::Global;
use thiserror::Error;

/// Why a host can't be seen as a guest, or that this wasn't found out.
#[derive(Clone, Copy, Debug, PartialEq, Eq, Error)]
pub enum SoundAnswer {
    /// The host can't be seen as a guest: the first cause in it, at its least place.
    #[error("the host can't be seen as a guest")]
    Unsound(Unsound),
    /// There was no memory.
    #[error("no memory was found")]
    Memory,
}

impl Host {
    /// The first cause that this host can't be seen as a guest, at its least place.
    fn cause(&self, alloc: Global) -> Result<Option<Unsound>, Memory>
        ensures { IfOk result (λ found. found ≡ cause_in self.now.host) }
    {
        unsoundness(alloc, self.kind(), self.frame_store(), self.parts(), self)
    }

    /// Whether this host can be seen as a guest; else the first cause that it can't, at its least place.
    #[tactic(auto, using(crate::proofs::SoundHosts::sound_if_none))]
    pub fn sound(&self, alloc: Global) -> Result<(), SoundAnswer>
        ensures ok { OnOk result (IsSound self.now.host) }
        ensures faultless { OnOk result (cause_in self.now.host ≡ None) }
        ensures unsound { (u : Cause) → result ≡ Err (answers.Unsound u) → cause_in self.now.host ≡ Some u }
    {
        match self.cause(alloc) {
            Ok(None) => Ok(()),
            Ok(Some(cause)) => Err(SoundAnswer::Unsound(cause)),
            Err(_) => Err(SoundAnswer::Memory),
        }
    }
}
