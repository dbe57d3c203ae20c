ghost use Rattle.std.specs.Prelude.{◌≡◌, ◌↔◌, ◌∷◌, [], ℕ, IfOk, IfNone, IfSome, IsTrue, codes};
ghost use Rattle.mig_machine_script.specs.Common.{option_copied};
ghost use Rattle.mig_machine_script.specs.ScriptFields.{fields_left, HasFields};
ghost use Rattle.mig_machine_script.specs.ScriptLines.{LineOf, AreNumbers, IsScriptLine, line_said};

use crate::fields::{bytes_in, first_field, number};
use crate::script::Line;
use mig_bytes::Memory;
use std::alloc::Global;

/// The number that is the only field left.
fn one(rest: Option<&[u8]>) -> Option<u64>
    ensures some { IfSome result (λ n. AreNumbers (fields_left (option_copied rest.entry)) (n ∷ []) []) }
    ensures none { IfNone result ((n : ℕ) → AreNumbers (fields_left (option_copied rest.entry)) (n ∷ []) [] → ⊥) }
{
    let (n, behind) = number(rest)?;
    if behind.is_some() {
        return None;
    }
    Some(n)
}

/// The two numbers that are the only fields left.
fn two(rest: Option<&[u8]>) -> Option<(u64, u64)>
    ensures some { IfSome result (λ r. AreNumbers (fields_left (option_copied rest.entry)) (r.0 ∷ r.1 ∷ []) []) }
    ensures none { IfNone result ((n m : ℕ) → AreNumbers (fields_left (option_copied rest.entry)) (n ∷ m ∷ []) [] → ⊥) }
{
    let (n, behind) = number(rest)?;
    let m = one(behind)?;
    Some((n, m))
}

/// The line of these arguments that writes into a page.
fn write_in(alloc: Global, rest: Option<&[u8]>) -> Result<Option<Line>, Memory>
    ensures some { IfOk result (λ found. IfSome found (λ line. HasFields (codes "w") (fields_left (option_copied rest.entry)) (line_said line))) }
    ensures none { IfOk result (λ found. IfNone found ((line : LineOf) → HasFields (codes "w") (fields_left (option_copied rest.entry)) line → ⊥)) }
{
    let Some((pfn, behind)) = number(rest) else {
        return Ok(None);
    };
    let Some((at, last)) = number(behind) else {
        return Ok(None);
    };
    let Some(bytes) = bytes_in(alloc, last)? else {
        return Ok(None);
    };
    Ok(Some(Line::Write { pfn, at, bytes }))
}

/// The line of these arguments that replaces a part.
fn put_in(alloc: Global, rest: Option<&[u8]>) -> Result<Option<Line>, Memory>
    ensures some { IfOk result (λ found. IfSome found (λ line. HasFields (codes "p") (fields_left (option_copied rest.entry)) (line_said line))) }
    ensures none { IfOk result (λ found. IfNone found ((line : LineOf) → HasFields (codes "p") (fields_left (option_copied rest.entry)) line → ⊥)) }
{
    let Some((code, behind)) = number(rest) else {
        return Ok(None);
    };
    let Some((first, others)) = number(behind) else {
        return Ok(None);
    };
    let Some((second, last)) = number(others) else {
        return Ok(None);
    };
    let Some(bytes) = bytes_in(alloc, last)? else {
        return Ok(None);
    };
    Ok(Some(Line::Put {
        code,
        first,
        second,
        bytes,
    }))
}

/// The line of these arguments that gives a frame another type.
fn retype_in(rest: Option<&[u8]>) -> Option<Line>
    ensures some { IfSome result (λ line. HasFields (codes "t") (fields_left (option_copied rest.entry)) (line_said line)) }
    ensures none { IfNone result ((line : LineOf) → HasFields (codes "t") (fields_left (option_copied rest.entry)) line → ⊥) }
{
    let (pfn, kind) = two(rest)?;
    Some(Line::Retype { pfn, kind })
}

/// The line of these arguments that adds a frame.
fn add_in(rest: Option<&[u8]>) -> Option<Line>
    ensures some { IfSome result (λ line. HasFields (codes "a") (fields_left (option_copied rest.entry)) (line_said line)) }
    ensures none { IfNone result ((line : LineOf) → HasFields (codes "a") (fields_left (option_copied rest.entry)) line → ⊥) }
{
    let (pfn, mfn) = two(rest)?;
    Some(Line::Add { pfn, mfn })
}

/// The line of these arguments that removes a frame.
fn remove_in(rest: Option<&[u8]>) -> Option<Line>
    ensures some { IfSome result (λ line. HasFields (codes "r") (fields_left (option_copied rest.entry)) (line_said line)) }
    ensures none { IfNone result ((line : LineOf) → HasFields (codes "r") (fields_left (option_copied rest.entry)) line → ⊥) }
{
    let pfn = one(rest)?;
    Some(Line::Remove { pfn })
}

/// The line of these arguments that gives a frame another machine frame.
fn exchange_in(rest: Option<&[u8]>) -> Option<Line>
    ensures some { IfSome result (λ line. HasFields (codes "x") (fields_left (option_copied rest.entry)) (line_said line)) }
    ensures none { IfNone result ((line : LineOf) → HasFields (codes "x") (fields_left (option_copied rest.entry)) line → ⊥) }
{
    let (pfn, mfn) = two(rest)?;
    Some(Line::Exchange { pfn, mfn })
}

/// The line that ends a group, where no argument is left.
fn dot_in(rest: Option<&[u8]>) -> Option<Line>
    ensures some { IfSome result (λ line. HasFields (codes ".") (fields_left (option_copied rest.entry)) (line_said line)) }
    ensures none { IfNone result ((line : LineOf) → HasFields (codes ".") (fields_left (option_copied rest.entry)) line → ⊥) }
{
    if rest.is_some() {
        return None;
    }
    Some(Line::Dot)
}

/// Whether it is this name.
fn is_name(name: &[u8], this: &[u8]) -> bool
    ensures { IsTrue result ↔ (name.now ≡ this.now) }
{
    name == this
}

/// The line of this name and these arguments, which has no bytes.
fn numbers_named(name: &[u8], rest: Option<&[u8]>) -> Option<Line>
    requires write { name.now ≡ codes "w" → ⊥ }
    requires put { name.now ≡ codes "p" → ⊥ }
    ensures some { IfSome result (λ line. HasFields name.now (fields_left (option_copied rest.entry)) (line_said line)) }
    ensures none { IfNone result ((line : LineOf) → HasFields name.now (fields_left (option_copied rest.entry)) line → ⊥) }
{
    if is_name(name, b"t") {
        return retype_in(rest);
    }
    if is_name(name, b"a") {
        return add_in(rest);
    }
    if is_name(name, b"r") {
        return remove_in(rest);
    }
    if is_name(name, b"x") {
        return exchange_in(rest);
    }
    if is_name(name, b".") {
        return dot_in(rest);
    }
    None
}

/// The line of this name and these arguments.
fn line_named(alloc: Global, name: &[u8], rest: Option<&[u8]>) -> Result<Option<Line>, Memory>
    ensures some { IfOk result (λ found. IfSome found (λ line. HasFields name.now (fields_left (option_copied rest.entry)) (line_said line))) }
    ensures none { IfOk result (λ found. IfNone found ((line : LineOf) → HasFields name.now (fields_left (option_copied rest.entry)) line → ⊥)) }
{
    if is_name(name, b"w") {
        return write_in(alloc, rest);
    }
    if is_name(name, b"p") {
        return put_in(alloc, rest);
    }
    Ok(numbers_named(name, rest))
}

/// The line that a text is.
pub(crate) fn line_in(alloc: Global, text: &[u8]) -> Result<Option<Line>, Memory>
    ensures some { IfOk result (λ found. IfSome found (λ line. IsScriptLine text.now (line_said line))) }
    ensures none { IfOk result (λ found. IfNone found ((line : LineOf) → IsScriptLine text.now line → ⊥)) }
{
    let (name, rest) = first_field(text);
    line_named(alloc, name, rest)
}
