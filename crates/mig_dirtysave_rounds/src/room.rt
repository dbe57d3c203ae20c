ghost use Rattle.std.specs.Prelude.{◌≡◌, ℕ, ◌<◌, ◌≤◌, length, slice_index_or, IfOk, None};
ghost use Rattle.mig_dirtysave_rounds.specs.Common.{most_saved_width};

use mig_bytes::Memory;
use mig_pagetypes::PageType;
use mig_records_pages::Batch;
use std::alloc::{AllocError, Global};
use std::marker::Model;

/// What the rounds of a save keep in mind, made beforehand. It has which frame numbers are to be read, and whose table
/// is deferred; the type seen last of each; a log; and a batch of entries.
#[derive(Drop)]
pub struct Room {
    pub(crate) batch: Batch,
    pub(crate) set: Vec<u64>,
    pub(crate) deferred: Vec<u64>,
    pub(crate) types: Vec<Option<PageType>>,
    pub(crate) log: Vec<u64>,
}

impl Model for Room {
    ghost use Rattle.std.specs.Prelude.{ℕ, length};

    ghost Value = { ℕ };

    ghost use Rattle.mig_dirtysave_rounds.specs.Unused.{IsUnused};

    ghost view = { λ r. length r.types.items };

    ghost invariant = { λ r. IsUnused r.batch r.set.items r.deferred.items r.types.items r.log.items };
}

impl Room {
    /// Room for a machine with so many frame numbers; `Memory` where there is none left.
    pub fn new(alloc: Global, width: u64) -> Result<Room, Memory>
        requires { width ≤ most_saved_width }
        ensures { IfOk result (λ room. room ≡ width) }
    {
        match make_room(alloc, width) {
            Ok(room) => Ok(room),
            Err(_) => Err(Memory),
        }
    }
}

/// For each number that no type was seen.
fn no_types(alloc: Global, width: usize) -> Result<Vec<Option<PageType>>, AllocError>
    ensures size { IfOk result (λ types. length types.items ≡ width) }
    ensures none { IfOk result (λ types. (p : ℕ) → p < length types.items → slice_index_or types.items p None ≡ None) }
{
    vec![in alloc; None; width]
}

/// Every number is to be read, and nothing is noted.
fn make_room(alloc: Global, width: u64) -> Result<Room, AllocError>
    requires { width ≤ most_saved_width }
    ensures { IfOk result (λ room. room ≡ width) }
{
    Ok(Room {
        batch: Batch::new(alloc)?,
        set: mig_guest::pfn_set::all(alloc, width)?,
        deferred: mig_guest::pfn_set::none(alloc, width)?,
        types: no_types(alloc, width as usize)?,
        log: mig_guest::pfn_set::none(alloc, width)?,
    })
}
