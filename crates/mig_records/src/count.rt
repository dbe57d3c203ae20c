ghost use Rattle.std.specs.Prelude.{◌≡◌};
ghost use Rattle.mig_records.specs.Faults.{fault_of_count};

use mig_headers::Cause;

/// What is wrong with the count in the first 8 bytes of a PAGE_DATA whose body has this length.
pub fn count_fault(len: u32, count: u32) -> Option<Cause>
    ensures fault { result ≡ fault_of_count len count }
{
    let front_and_words = 8 + 8 * u64::from(count);
    if u64::from(len) < front_and_words {
        return Some(Cause::BadLength(u64::from(len)));
    }
    if count == 0 {
        return Some(Cause::NoPages);
    }
    None
}
