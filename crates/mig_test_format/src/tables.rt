use mig_bytes::MemSink;
use mig_headers::{Cause, Kind, LegacyCause, RecordType, is_optional};
use mig_headers_text::{put_cause, put_legacy_cause};
use mig_policy::canonical_pairs;
use std::test::Fail;

// Number, whether the type is supported, whether it stands in PV and in HVM guests, a length that it may have, and one
// that it may not have; u32::MAX where it may have any.
const RECORD_TYPES: [(u32, bool, bool, bool, u32, u32); 23] = [
    (0x0, true, true, true, 0, 8),
    (0x1, true, true, true, 8, 7),
    (0x2, true, true, false, 8, 9),
    (0x3, true, true, false, 16, 0),
    (0x4, true, true, false, 5176, 5168),
    (0x4, true, true, false, 8, 0),
    (0x5, true, true, false, 8, 7),
    (0x6, true, true, false, 9, 7),
    (0x7, true, true, false, 4096, 4095),
    (0x8, true, true, true, 24, 20),
    (0x9, true, false, true, 0, u32::MAX),
    (0xA, true, false, true, 8, 4),
    (0xB, false, true, true, 0, u32::MAX),
    (0xC, true, true, false, 8, 16),
    (0xC, true, true, false, 24, 0),
    (0xD, true, true, true, 0, 8),
    (0xE, false, true, true, 0, u32::MAX),
    (0xF, false, true, true, 0, u32::MAX),
    (0x10, true, true, true, 0, 1),
    (0x11, true, true, true, 1_572_864, 1_572_888),
    (0x11, true, true, true, 0, 16),
    (0x12, true, true, true, 1_048_576, 1_048_592),
    (0x12, true, true, true, 16, 24),
];

#[test]
fn knows_record_types(rt: HostRuntime) -> Result<(), Fail> {
    for (number, supported, pv, hvm, good, bad) in RECORD_TYPES {
        let kind = RecordType::from_number(number).ok_or("no type")?;
        assert_eq!(rt; kind.number(), number);
        assert_eq!(rt; kind.is_supported(), supported, "{number}");
        assert_eq!(rt; kind.is_of(Kind::Pv), pv, "{number}");
        assert_eq!(rt; kind.is_of(Kind::Hvm), hvm, "{number}");
        assert!(rt; kind.allows_length(good), "{number}");
        assert!(rt; bad == u32::MAX || !kind.allows_length(bad), "{number}");
    }
    assert_eq!(rt; RecordType::from_number(0x13), None);
    assert!(rt; is_optional(0x8000_0000) && !is_optional(0x7fff_ffff));
    Ok(())
}

// Those that only a stream of gigabytes has.
const CAUSES: [(Cause, &str); 2] = [
    (Cause::TooManyRecords, "31 TooManyRecords"),
    (Cause::TooManyFrames, "32 TooManyFrames"),
];

#[test]
fn prints_causes(rt: HostRuntime) {
    for (cause, want) in CAUSES {
        let mut sink = MemSink::new(rt.alloc(), Vec::new(rt.alloc()));
        assert_eq!(rt; put_cause(&mut sink, cause), Ok(()));
        assert_eq!(rt; sink.bytes(), want.as_bytes());
    }
}

// Those that only a legacy stream of gigabytes has.
const LEGACY_CAUSES: [(LegacyCause, &str); 2] = [
    (LegacyCause::TooManyChunks, "16 TooManyChunks"),
    (LegacyCause::TooManyFrames, "17 TooManyFrames"),
];

#[test]
fn prints_causes_of_legacy_streams(rt: HostRuntime) {
    for (cause, want) in LEGACY_CAUSES {
        let mut sink = MemSink::new(rt.alloc(), Vec::new(rt.alloc()));
        assert_eq!(rt; put_legacy_cause(&mut sink, cause), Ok(()));
        assert_eq!(rt; sink.bytes(), want.as_bytes());
    }
}

// Bytes, and whether they are canonical pairs of texts.
const PAIRS: [(&[u8], bool); 16] = [
    (b"", true),
    (b"a\0\0", true),
    (b"a\0b\0aa\0c\0b\0d\0", true),
    (b"-/09@AZ_az\0\x01 =.\x7f\xff\0", true),
    (b"\0", false),
    (b"\0b\0", false),
    (b"a.b\0c\0", false),
    (b"a b\0c\0", false),
    (b"a\x80\0c\0", false),
    (b"a\0b\0a\0b\0", false),
    (b"b\0c\0a\0d\0", false),
    (b"aa\0c\0a\0d\0", false),
    (b"a\0b\0\0c\0", false),
    (b"a", false),
    (b"a\0", false),
    (b"a\0b", false),
];

#[test]
fn knows_canonical_pairs(rt: HostRuntime) {
    for (bytes, want) in PAIRS {
        assert_eq!(rt; canonical_pairs(bytes), want, "{bytes:?}");
    }
}
