ghost use Rattle.std.specs.Prelude.{◌≡◌, ◌+◌, ◌≤◌, ◌&&◌, ℕ, true, false, not, is_some, nat_le, nat_lt, if◌then◌else◌, Some, None, IfSome, IfNone};
ghost use Rattle.std.specs.FinMap as maps;
ghost use Rattle.mig_machine_script.specs.Common.{type_of, machine_limit, has_machine};
ghost use Rattle.mig_guest.specs.Frames.{is_type_of as is_type_of_kind};
ghost use Rattle.mig_machine_script.specs.ScriptLines.{line_said};
ghost use Rattle.mig_machine_script.specs.ScriptLines.LineOf.{Write as Writes, Retype as Retypes, Add as Adds, Remove as Removes, Exchange as Exchanges, Put as Puts};
ghost use Rattle.mig_machine_script.specs.HostLines.{applies, after_line, logs, room_of, may_come, may_go, is_allowed, is_key, has_length, key_of_numbers};

use crate::named::is_named;
use crate::script::Line;
use mig_guest::{PartKey, is_fixed};
use mig_headers::Kind;
use mig_host::Host;
use mig_pagetypes::{MACHINE_LIMIT, MOST_FRAMES, PageType};
use mig_pvtables::Frames;

/// The last number of a type.
const LAST_TYPE: u64 = 15;

/// Whether so many bytes that begin at `at` fit into a page.
fn fits(at: u64, len: usize) -> bool
    ensures { result ≡ nat_le (at + len) 4096 }
{
    at <= 4096 && len as u64 <= 4096 - at
}

/// Whether bytes can be written into a frame's page.
fn can_write(host: &Host, pfn: u64, at: u64, bytes: &[u8]) -> bool
    ensures { result ≡ applies host.now.host (Writes pfn at bytes.now) }
{
    host.page(pfn).is_some() && fits(at, bytes.len())
}

/// Writes bytes into a frame's page, where they can be.
fn write(host: &mut Host, pfn: u64, at: u64, bytes: &[u8]) -> bool
    ensures applied { result ≡ applies host.old.host (Writes pfn at bytes.now) }
    ensures host { host.new.host ≡ after_line host.old.host (Writes pfn at bytes.now) }
    ensures spare { host.old.spare ≤ host.new.spare }
{
    if !can_write(host, pfn, at, bytes) {
        return false;
    }
    host.write(pfn, at as usize, bytes);
    true
}

/// The type that has this number, which may be any.
fn type_with(number: u64) -> Option<PageType>
    ensures { result ≡ type_of number }
{
    if number > LAST_TYPE {
        return None;
    }
    PageType::from_nibble(number as u8)
}

/// Whether a frame of a guest of this kind has this type.
fn is_type_of(kind: Kind, this: PageType) -> bool
    ensures { result ≡ is_type_of_kind kind this }
{
    match kind {
        Kind::Pv => !matches!(this, PageType::Xtab),
        Kind::Hvm => matches!(this, PageType::Notab | PageType::Broken | PageType::Xalloc),
    }
}

/// The type that has this number, where a frame of a guest of this kind has it.
fn allowed_type(kind: Kind, number: u64) -> Option<PageType>
    ensures some { IfSome result (λ this. (type_of number ≡ Some this) × (is_type_of_kind kind this ≡ true)) }
    ensures none { IfNone result (is_allowed kind (type_of number) ≡ false) }
{
    let this = type_with(number)?;
    if !is_type_of(kind, this) {
        return None;
    }
    Some(this)
}

/// Gives a frame the type that has this number, where it can have it.
fn retype(host: &mut Host, pfn: u64, number: u64) -> bool
    requires room { 1 ≤ host.old.spare }
    ensures applied { result ≡ applies host.old.host (Retypes pfn number) }
    ensures host { host.new.host ≡ after_line host.old.host (Retypes pfn number) }
    ensures spare { host.old.spare ≤ host.new.spare + 1 }
{
    let Some(this) = allowed_type(host.kind(), number) else {
        return false;
    };
    if host.frame(pfn).is_none() {
        return false;
    }
    host.set_type(pfn, this);
    true
}

/// Whether it is a machine frame that no frame has.
fn is_free(host: &Host, mfn: u64) -> bool
    ensures { result ≡ (nat_lt 0 mfn && nat_lt mfn machine_limit && not (has_machine host.now.host mfn)) }
{
    0 < mfn && mfn < MACHINE_LIMIT && !host.uses_machine(mfn)
}

/// Whether a machine frame can come to a frame number: no frame has it, and no table names it.
fn can_come(host: &Host, mfn: u64) -> bool
    ensures { result ≡ may_come host.now.host mfn }
{
    is_free(host, mfn) && !is_named(host, mfn)
}

/// Whether a frame is there whose machine frame no table names.
fn can_go(host: &Host, pfn: u64) -> bool
    ensures { result ≡ may_go host.now.host pfn }
{
    match host.mfn_of(pfn) {
        Some(own) => !is_named(host, own),
        None => false,
    }
}

/// Whether a frame can be added. Tables are looked at last.
fn can_add(host: &Host, pfn: u64, mfn: u64) -> bool
    ensures { result ≡ applies host.now.host (Adds pfn mfn) }
{
    pfn < host.width()
        && host.frame(pfn).is_none()
        && host.frames() < MOST_FRAMES
        && can_come(host, mfn)
}

/// Adds a frame, where it can be added.
fn add(host: &mut Host, pfn: u64, mfn: u64) -> bool
    requires room { 1 ≤ host.old.spare }
    ensures applied { result ≡ applies host.old.host (Adds pfn mfn) }
    ensures host { host.new.host ≡ after_line host.old.host (Adds pfn mfn) }
    ensures spare { host.old.spare ≤ host.new.spare + 1 }
{
    if !can_add(host, pfn, mfn) {
        return false;
    }
    host.add(pfn, mfn);
    true
}

/// Removes a frame, where it can go.
fn remove(host: &mut Host, pfn: u64) -> bool
    ensures applied { result ≡ applies host.old.host (Removes pfn) }
    ensures host { host.new.host ≡ after_line host.old.host (Removes pfn) }
    ensures spare { host.old.spare ≤ host.new.spare }
{
    if !can_go(host, pfn) {
        return false;
    }
    host.remove(pfn);
    true
}

/// Whether a frame can have this machine frame in place of its own. Tables are looked at last.
fn can_exchange(host: &Host, pfn: u64, mfn: u64) -> bool
    ensures { result ≡ applies host.now.host (Exchanges pfn mfn) }
{
    is_free(host, mfn) && can_go(host, pfn) && !is_named(host, mfn)
}

/// Gives a frame another machine frame, where the one can go and the other can come.
fn exchange(host: &mut Host, pfn: u64, mfn: u64) -> bool
    ensures applied { result ≡ applies host.old.host (Exchanges pfn mfn) }
    ensures host { host.new.host ≡ after_line host.old.host (Exchanges pfn mfn) }
    ensures spare { host.old.spare ≤ host.new.spare }
{
    if !can_exchange(host, pfn, mfn) {
        return false;
    }
    host.exchange(pfn, mfn);
    true
}

/// The key of these numbers, where they have 32 bits.
fn key_with(code: u64, first: u64, second: u64) -> Option<PartKey>
    ensures some { IfSome result (λ key. (is_key code first second ≡ true) × (key ≡ key_of_numbers code first second)) }
    ensures none { IfNone result (is_key code first second ≡ false) }
{
    let is = code < 1 << 32 && first < 1 << 32 && second < 1 << 32;
    if !is {
        return None;
    }
    Some(PartKey {
        code: code as u32,
        key1: first as u32,
        key2: second as u32,
    })
}

/// Whether a part is there and has so many bytes.
fn has_len(host: &Host, key: PartKey, len: usize) -> bool
    ensures { result ≡ has_length len (maps.get host.now.host.parts key) }
{
    match host.part(key) {
        Some(part) => part.len() == len,
        None => false,
    }
}

/// Replaces the bytes of a part, where it is there, has as many, and may change.
fn put(host: &mut Host, code: u64, first: u64, second: u64, bytes: &[u8])
    ensures host { host.new.host ≡ after_line host.old.host (Puts code first second bytes.now) }
    ensures spare { host.new.spare ≡ host.old.spare }
{
    let Some(key) = key_with(code, first, second) else {
        return;
    };
    let can = has_len(host, key, bytes.len()) && !is_fixed(key.code);
    if can {
        host.put_part(key, bytes);
    }
}

/// The frame number that is logged, where a line applied.
fn logged(applied: bool, pfn: u64) -> Option<u64>
    ensures { result ≡ (if applied then Some pfn else None) }
{
    if applied { Some(pfn) } else { None }
}

/// Applies a line to a host, where it applies, and takes no memory. The answer is the frame number that is to be logged.
pub(crate) fn apply(host: &mut Host, line: &Line) -> Option<u64>
    requires room { room_of (line_said line.now) ≤ host.old.spare }
    ensures host { host.new.host ≡ after_line host.old.host (line_said line.now) }
    ensures logged { result ≡ logs host.old.host (line_said line.now) }
    ensures spare { host.old.spare ≤ host.new.spare + room_of (line_said line.now) }
{
    match line {
        Line::Write { pfn, at, bytes } => logged(write(host, *pfn, *at, bytes), *pfn),
        Line::Retype { pfn, kind } => logged(retype(host, *pfn, *kind), *pfn),
        Line::Add { pfn, mfn } => logged(add(host, *pfn, *mfn), *pfn),
        Line::Remove { pfn } => logged(remove(host, *pfn), *pfn),
        Line::Exchange { pfn, mfn } => logged(exchange(host, *pfn, *mfn), *pfn),
        Line::Put {
            code,
            first,
            second,
            bytes,
        } => {
            put(host, *code, *first, *second, bytes);
            None
        }
        Line::Dot => None,
    }
}
