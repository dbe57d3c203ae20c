ghost use Rattle.std.specs.Prelude.{◌≡◌, IfOk};
ghost use Rattle.mig_show.specs.Common.{view};
ghost use Rattle.mig_show.specs.Tree.{records_tree, kind_tree, version_tree, refused_tree, shown_tree};

use crate::record::{Seen1, record_object};
use crate::refusal::refused_text;
use mig_bytes::Memory;
use mig_headers::{Cause, Kind, Place};
use serde_json::{Value, json};
use std::alloc::{AllocError, Global};

/// The JSON array of the records, in their order.
fn records_array(alloc: Global, list: &[Seen1]) -> Result<Value, AllocError>
    ensures { IfOk result (λ v. view v ≡ records_tree list.now) }
{
    let mut objects = Vec::new(alloc);
    for record in list {
        objects.push(record_object(alloc, *record)?)?;
    }
    Ok(Value::Array(objects))
}

/// The JSON of a guest's kind.
pub(crate) fn kind_value(alloc: Global, kind: Option<Kind>) -> Result<Value, AllocError>
    ensures { IfOk result (λ v. view v ≡ kind_tree kind) }
{
    match kind {
        None => Ok(Value::Null),
        Some(Kind::Pv) => Value::try_from_str(alloc, "pv"),
        Some(Kind::Hvm) => Value::try_from_str(alloc, "hvm"),
    }
}

/// The JSON of a stream's version.
pub(crate) fn version_value(version: Option<u32>) -> Value
    ensures { view result ≡ version_tree version }
{
    match version {
        None => Value::Null,
        Some(version) => Value::from(version),
    }
}

/// The JSON of why a stream is refused.
pub(crate) fn refused_value(
    alloc: Global,
    refused: Option<(Place, Cause)>,
) -> Result<Value, AllocError>
    ensures { IfOk result (λ v. view v ≡ refused_tree refused) }
{
    match refused {
        None => Ok(Value::Null),
        Some((place, cause)) => Ok(Value::String(refused_text(alloc, place, cause)?)),
    }
}

/// The JSON object that shows a stream.
fn stream_object(
    alloc: Global,
    wrapper: bool,
    version: Option<u32>,
    kind: Option<Kind>,
    list: &[Seen1],
    refused: Option<(Place, Cause)>,
) -> Result<Value, AllocError>
    ensures { IfOk result (λ v. view v ≡ shown_tree wrapper version kind list.now refused) }
{
    let kind = kind_value(alloc, kind)?;
    let records = records_array(alloc, list)?;
    let refused = refused_value(alloc, refused)?;
    let version = version_value(version);
    json!(in alloc; {"kind": kind, "records": records, "refused": refused, "version": version, "wrapper": wrapper})
}

/// The JSON object that shows a stream. It has five members:
///
/// - `kind`, "pv" or "hvm"
/// - `records`, an array with an object for each record of `list`, in its order
/// - `refused`, what the refusal line says behind its first word
/// - `version`
/// - `wrapper`, whether it is a libxl stream
///
/// A kind or a version that isn't known is null, and so is `refused` of a stream that isn't refused.
///
/// The object of a record has `layer`, "libxc" or "libxl"; `length`, the bytes of its body; `type`, its number; and
/// `name`. That is the name of its type in Xen's documents (libxc and libxl migration stream, "Records"), or "optional"
/// where its type has bit 31. Of a PAGE_DATA it also has `words`, how many it has, and `pages`, how many of them have
/// data.
///
/// `Memory` where no memory was found. A type that is none of the record's layer and has no bit 31 has an empty
/// name.
pub fn tree_of(
    alloc: Global,
    wrapper: bool,
    version: Option<u32>,
    kind: Option<Kind>,
    list: &[Seen1],
    refused: Option<(Place, Cause)>,
) -> Result<Value, Memory>
    ensures { IfOk result (λ v. view v ≡ shown_tree wrapper version kind list.now refused) }
{
    match stream_object(alloc, wrapper, version, kind, list, refused) {
        Ok(tree) => Ok(tree),
        Err(_) => Err(Memory),
    }
}
