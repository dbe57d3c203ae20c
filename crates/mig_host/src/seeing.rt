ghost use Rattle.std.specs.Prelude.{◌≡◌, ◌<◌, Some, Err, OnOk, IfOk, IfSome};
ghost use Rattle.mig_host.specs.Common.{option_copied, Pv, IsValid, each_value, IsOfBytes, IsStreamed, IsSound, unsoundness, without_machine, top_of, guest_in, view};
ghost use Rattle.std.specs.Result.{IsOk};
ghost use Rattle.std.specs.FinMap as maps;
ghost use Rattle.mig_bytes.specs.Bytes.{AreBytes};
ghost use Rattle.mig_headers.specs.Contexts.{scan};
ghost use Rattle.mig_guest.specs.PartKeys.{context_key};
ghost use Rattle.mig_headers.specs.declared.unsound.Unsound.{Unsound as Cause};
ghost use Rattle.mig_host_view.specs.Normalised.{part_seen};
ghost use Rattle.mig_host.specs.declared.sound.SoundAnswer.TheVariants as answers;

use crate::host::Host;
use crate::sound::SoundAnswer;
use mig_bytes::{Memory, are_bytes};
use mig_guest::{Guest, PartCode, PartKey};
use mig_headers::Kind;
use mig_host_view::normalise_guest;
use mig_hvm::read_context;
use std::alloc::Global;

/// The greatest PFN that a guest may have whose host is of this kind and width; 0 for HVM.
fn top_for(kind: Kind, width: u64) -> u64
    requires { kind ≡ Pv → 0 < width }
    ensures { result ≡ top_of kind width }
{
    match kind {
        Kind::Pv => width - 1,
        Kind::Hvm => 0,
    }
}

/// Does nothing. It says the same of a page, where there is one.
fn page_is_of_bytes(page: Option<&[u8; 4096]>)
    ensures { IfSome (option_copied page.entry) (λ page. AreBytes page) }
{
    if let Some(bytes) = page {
        are_bytes(bytes);
    }
}

/// Sets the frames of a host, without their machine frames. Where no memory is found, some may be set.
fn copy_frames(guest: &mut Guest, host: &Host) -> Result<(), Memory>
    requires none { guest.old.frames ≡ maps.empty }
    requires valid { IsValid host.now.host }
    requires bytes { IsOfBytes guest.old }
    ensures bytes { OnOk result (IsOfBytes guest.new) }
    ensures frames { OnOk result (guest.new ≡ record guest.old { frames = each_value (λ _ frame. without_machine frame) host.now.host.frames }) }
{
    let mut from = 0;
    while let Some((pfn, kind, _, page)) = host.next_entry(from) {
        page_is_of_bytes(page);
        guest.set_frame(pfn, kind, page)?;
        from = pfn + 1;
    }
    Ok(())
}

/// Sets a part of a host, the context cut behind its END.
fn copy_part(guest: &mut Guest, key: PartKey, bytes: &[u8]) -> Result<(), Memory>
    requires sole { key.code ≡ 9 → key ≡ context_key }
    requires chain { key.code ≡ 9 → IsOk (scan bytes.now) }
    ensures { OnOk result (guest.new ≡ record guest.old { parts = maps.insert guest.old.parts key (part_seen key bytes.now) }) }
{
    if key.code == PartCode::HvmContext.number() {
        read_context(guest, bytes)
    } else {
        guest.set_part(key, bytes)
    }
}

/// Sets the parts of a host, the context cut behind its END. Where no memory is found, some may be set.
fn copy_parts(guest: &mut Guest, host: &Host) -> Result<(), Memory>
    requires none { guest.old.parts ≡ maps.empty }
    requires valid { IsValid host.now.host }
    requires sound { IsSound host.now.host }
    requires bytes { IsOfBytes guest.old }
    ensures bytes { OnOk result (IsOfBytes guest.new) }
    ensures parts { OnOk result (guest.new ≡ record guest.old { parts = each_value part_seen host.now.host.parts }) }
{
    let mut after = None;
    while let Some((key, bytes)) = host.next_behind(after) {
        are_bytes(bytes);
        copy_part(guest, key, bytes)?;
        after = Some(key);
    }
    Ok(())
}

/// A copy of the guest that stands in a sound host, as it stands there but for the context, which is cut behind its END.
fn copy_guest(alloc: Global, host: &Host) -> Result<Guest, Memory>
    requires { IsSound host.now.host }
    ensures bytes { IfOk result (λ guest. IsOfBytes guest) }
    ensures guest { IfOk result (λ guest. guest ≡ record (guest_in host.now.host) { parts = each_value part_seen host.now.host.parts }) }
    ensures valid { IsValid host.now.host }
{
    let kind = host.kind();
    let top = top_for(kind, host.width());
    let mut guest = Guest::new(alloc, kind);
    guest.set_top(top);
    copy_frames(&mut guest, host)?;
    copy_parts(&mut guest, host)?;
    Ok(guest)
}

/// The guest that stands in a sound host, as a stream says it.
fn guest_seen(alloc: Global, host: &Host) -> Result<Guest, Memory>
    requires { IsSound host.now.host }
    ensures guest { IfOk result (λ guest. guest ≡ view host.now.host) }
    ensures bytes { IfOk result (λ guest. IsOfBytes guest) }
    ensures valid { OnOk result (IsValid host.now.host) }
{
    let mut guest = copy_guest(alloc, host)?;
    match host.kind() {
        Kind::Pv => normalise_guest(&mut guest, host),
        Kind::Hvm => {}
    }
    Ok(guest)
}

/// The guest that a host is seen as: a whole one, in its blank form, and of bytes. A host that isn't sound is answered with its first
/// cause, and no guest is made.
pub fn guest_of(alloc: Global, host: &Host) -> Result<Guest, SoundAnswer>
    ensures guest { IfOk result (λ guest. guest ≡ view host.now.host) }
    ensures streamed { IfOk result (λ guest. IsStreamed guest) }
    ensures sound { OnOk result (IsSound host.now.host) }
    ensures unsound { (u : Cause) → result ≡ Err (answers.Unsound u) → unsoundness host.now.host ≡ Some u }
{
    host.sound(alloc)?;
    match guest_seen(alloc, host) {
        Ok(guest) => Ok(guest),
        Err(_) => Err(SoundAnswer::Memory),
    }
}
