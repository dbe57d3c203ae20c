ghost use Rattle.std.specs.Prelude.{◌≡◌, ℕ, List, [], length};
ghost use Rattle.std.specs.declared.option.Option.{Option};
ghost use Rattle.mig_headers.specs.declared.fault.Cause.{Cause};
ghost use Rattle.mig_relay_bodies.specs.Begun.{IsBegunBody};

use mig_headers::{Cause, ContextFault};
use mig_relay_bodies::BodySeen;

// The fault of a body that comes in pieces is that of the whole body.
fn judged(seen: BodySeen, body: &[u8]) -> Option<Cause>
    requires len { length body.now ≡ seen.len }
    requires first { seen.taken ≡ 0 }
    ensures { (fault : List ℕ → Option Cause) → IsBegunBody seen fault [] → result ≡ fault body.now }
{
    let mut known = seen;
    while known.taken < known.len {
        let at = known.taken as usize;
        let end = at + known.next_piece();
        known.pass(&body[at..end]);
    }
    known.fault()
}

// An HVM_PARAMS of 300 parameters, of which the one at 290 has an index that no parameter has.
#[test]
fn a_parameter_in_a_later_piece_is_judged(rt: HostRuntime) {
    let mut body = [0; 4808];
    body[0] = 44;
    body[1] = 1;
    body[8 + 16 * 290 + 1] = 16;
    assert_eq!(rt;
        judged(BodySeen::of_record(10, 4808), &body),
        Some(Cause::ParamIndex(4096))
    );
    body[0] = 43;
    assert_eq!(rt;
        judged(BodySeen::of_record(10, 4808), &body),
        Some(Cause::BadLength(4808))
    );
}

// A basic context of a vCPU with 7169 GDT entries, which the second piece says.
#[test]
fn gdt_entries_of_a_vcpu_are_judged(rt: HostRuntime) {
    let mut body = [0; 5176];
    body[4968] = 0;
    body[4969] = 28;
    assert_eq!(rt; judged(BodySeen::of_record(4, 5176), &body), None);
    body[4968] = 1;
    assert_eq!(rt;
        judged(BodySeen::of_record(4, 5176), &body),
        Some(Cause::GdtEnts(7169))
    );
    body[1] = 16;
    assert_eq!(rt;
        judged(BodySeen::of_record(4, 5176), &body),
        Some(Cause::VcpuId(4096))
    );
}

// An HVM context whose second entry is longer than a piece, and then END; and the same without END.
#[test]
fn an_entry_is_followed_over_pieces(rt: HostRuntime) {
    let mut body = [0; 5048];
    body[0] = 1;
    body[4] = 24;
    body[32] = 2;
    body[36] = 136;
    body[37] = 19;
    assert_eq!(rt; judged(BodySeen::of_record(9, 5048), &body), None);
    assert_eq!(rt;
        judged(BodySeen::of_record(9, 5040), &body[..5040]),
        Some(Cause::BadContext(ContextFault::NoEnd))
    );
    assert_eq!(rt;
        judged(BodySeen::of_record(9, 0), &[]),
        Some(Cause::BadContext(ContextFault::NoHeader))
    );
}

// An emulator's pairs: a value longer than a piece, and then a key that no zero ends.
#[test]
fn pairs_are_judged_over_pieces(rt: HostRuntime) {
    let mut body = [b'v'; 5000];
    body[0] = 2;
    body[1] = 0;
    body[2] = 0;
    body[3] = 0;
    body[4] = 0;
    body[5] = 0;
    body[6] = 0;
    body[7] = 0;
    body[9] = 0;
    body[4990] = 0;
    assert_eq!(rt;
        judged(BodySeen::of_libxl_record(2, 5000), &body),
        Some(Cause::BadPairs(4983))
    );
    assert_eq!(rt;
        judged(BodySeen::of_libxl_record(2, 4991), &body[..4991]),
        None
    );
    body[4] = 3;
    body[0] = 3;
    assert_eq!(rt;
        judged(BodySeen::of_libxl_record(2, 4991), &body[..4991]),
        Some(Cause::BadEmulator(3))
    );
}
