ghost use Rattle.std.specs.Prelude.{◌≡◌, ◌<◌, ◌++◌, false, length, nat_lt, slice_index_or, string_bytes, IfOk, OnOk};
ghost use Rattle.mig_show.specs.Common.{view, has_float, comma_if, compact_text};
ghost use Rattle.mig_show.specs.Lines.{records_text};
ghost use Rattle.mig_show.specs.Tree.{record_tree};
ghost use Rattle.mig_show.specs.Shows.{front_tree, tree_line};
ghost use Rattle.mig_show.specs.declared.record.Seen1.{Seen1 as Listed};

use crate::record::{Seen1, record_object};
use crate::seen::Seen;
use crate::tree::{kind_value, refused_value, version_value};
use mig_headers::{Cause, Place};
use serde_json::Value;
use std::alloc::{AllocError, Global};

/// Puts the text of a value that has no float.
fn put_value(line: &mut String, alloc: Global, value: &Value) -> Result<(), AllocError>
    ensures { OnOk result (has_float (view value.now) ≡ false → string_bytes line.new ≡ string_bytes line.old ++ compact_text (view value.now)) }
{
    let text = value.to_string(alloc)?;
    line.push_str(text.as_str())
}

/// Puts the text of a record, behind a comma where others are before it.
fn put_record(line: &mut String, alloc: Global, later: bool, shown: Seen1) -> Result<(), AllocError>
    ensures { OnOk result (string_bytes line.new ≡ string_bytes line.old ++ (comma_if later ++ compact_text (record_tree shown))) }
{
    if later {
        line.push(',')?;
    }
    put_value(line, alloc, &record_object(alloc, shown)?)
}

/// Puts the text of the record at this place.
fn put_place(
    line: &mut String,
    alloc: Global,
    list: &[Seen1],
    place: usize,
) -> Result<(), AllocError>
    requires { place < length list.now }
    ensures { (d : Listed) → OnOk result (string_bytes line.new ≡ string_bytes line.old ++ (comma_if (nat_lt 0 place) ++ compact_text (record_tree (slice_index_or list.now place d)))) }
{
    put_record(line, alloc, place > 0, list[place])
}

/// Puts the texts of the records, with a comma between two. Each record's object is gone before the next is made, so
/// that a stream with many records takes the memory of its text, and not that of its tree.
fn put_records(line: &mut String, alloc: Global, list: &[Seen1]) -> Result<(), AllocError>
    ensures { OnOk result (string_bytes line.new ≡ string_bytes line.old ++ records_text false list.now) }
{
    for place in 0..list.len() {
        put_place(line, alloc, list, place)?;
    }
    Ok(())
}

/// The most bytes of a record's text, with its comma: a PAGE_DATA has four numbers, of 10, 7, 1 and 9 digits at most.
const MOST: usize = 100;

/// Puts the texts of the records, after room was made for all: a text that grows takes twice the memory.
fn put_list(line: &mut String, alloc: Global, list: &[Seen1]) -> Result<(), AllocError>
    ensures { OnOk result (string_bytes line.new ≡ string_bytes line.old ++ records_text false list.now) }
{
    line.reserve(list.len().saturating_mul(MOST))?;
    put_records(line, alloc, list)
}

/// The JSON text of the tree that shows what was seen of a stream, and a line feed.
pub(crate) fn stream_line(
    alloc: Global,
    seen: &Seen,
    refused: Option<(Place, Cause)>,
) -> Result<String, AllocError>
    ensures { IfOk result (λ line. string_bytes line ≡ tree_line (front_tree seen.now.front refused)) }
{
    let mut line = String::from_str(alloc, "{\"kind\":")?;
    put_value(&mut line, alloc, &kind_value(alloc, seen.kind)?)?;
    line.push_str(",\"records\":[")?;
    put_list(&mut line, alloc, &seen.records)?;
    line.push_str("],\"refused\":")?;
    put_value(&mut line, alloc, &refused_value(alloc, refused)?)?;
    line.push_str(",\"version\":")?;
    put_value(&mut line, alloc, &version_value(seen.version))?;
    line.push_str(",\"wrapper\":")?;
    put_value(&mut line, alloc, &Value::from(seen.wrapper))?;
    line.push_str("}")?;
    line.push_str("\n")?;
    Ok(line)
}
