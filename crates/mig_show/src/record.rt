ghost use Rattle.std.specs.Prelude.{◌≡◌, IfOk, OnOk, if◌then◌else◌};
ghost use Rattle.mig_show.specs.Common.{view, members_view};
ghost use Rattle.mig_show.specs.Tree.{layer_name, is_page_data, common_members, with_pages, record_tree};

use crate::names::shown_name;
use mig_headers::PAGE_DATA;
use serde_json::{Map, Value, put};
use std::alloc::{AllocError, Global};

/// What is shown of a record.
#[derive(Clone, Copy, Debug, PartialEq, Eq)]
pub struct Seen1 {
    /// Whether it is a record of a libxl stream, and not of a libxc stream.
    pub wrapped: bool,
    /// The number of its type.
    pub kind: u32,
    /// The bytes of its body, without the padding.
    pub len: u32,
    /// How many words a PAGE_DATA has; it isn't shown of another record.
    pub words: u64,
    /// How many words of a PAGE_DATA have data; it isn't shown of another record.
    pub pages: u64,
}

/// The name of the stream that a record belongs to.
fn layer_name(wrapped: bool) -> &'static str
    ensures { result.now ≡ layer_name wrapped }
{
    if wrapped { "libxl" } else { "libxc" }
}

/// What is shown of each record.
fn common_members(alloc: Global, shown: Seen1) -> Result<Map<String, Value>, AllocError>
    ensures { IfOk result (λ members. members_view members.entries ≡ common_members shown) }
{
    let layer = Value::try_from_str(alloc, layer_name(shown.wrapped))?;
    let name = Value::try_from_str(alloc, shown_name(shown.wrapped, shown.kind))?;
    let mut members = Map::new(alloc);
    put(&mut members, alloc, "layer", layer)?;
    put(&mut members, alloc, "length", Value::from(shown.len))?;
    put(&mut members, alloc, "name", name)?;
    put(&mut members, alloc, "type", Value::from(shown.kind))?;
    Ok(members)
}

/// Puts what is shown of a PAGE_DATA besides; of another record nothing.
fn put_pages(
    members: &mut Map<String, Value>,
    alloc: Global,
    shown: Seen1,
) -> Result<(), AllocError>
    ensures { OnOk result (members_view members.new.entries ≡ (if is_page_data shown then with_pages shown (members_view members.old.entries) else members_view members.old.entries)) }
{
    if shown.wrapped || shown.kind != PAGE_DATA {
        return Ok(());
    }
    put(members, alloc, "pages", Value::from(shown.pages))?;
    put(members, alloc, "words", Value::from(shown.words))
}

/// The JSON object of a record.
pub(crate) fn record_object(alloc: Global, shown: Seen1) -> Result<Value, AllocError>
    ensures { IfOk result (λ v. view v ≡ record_tree shown) }
{
    let mut members = common_members(alloc, shown)?;
    put_pages(&mut members, alloc, shown)?;
    Ok(Value::Object(members))
}
