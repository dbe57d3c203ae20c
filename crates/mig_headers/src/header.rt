ghost use Rattle.std.specs.Prelude.{◌≡◌, ◌==◌, ◌↔◌, None, Ok};
ghost use Rattle.mig_bytes.specs.Fields.{be64};
ghost use Rattle.mig_headers.specs.Headers.{fault_of_marker, marker, behind_marker, libxl_ident, behind_ident, image_header_of, domain_header_of, libxl_header_of, IsImageHeader, IsDomainHeader, IsLibxlHeader};

use crate::Kind;
use crate::fault::Cause;
use mig_bytes::{
    put_u16_le, put_u32_be, put_u32_le, put_u64_be, u16_be, u16_le, u32_be, u32_le, u64_be,
};

/// The first 8 bytes of an image.
const MARKER: u64 = u64::MAX;

/// "XENF".
const IMAGE_ID: u32 = 0x5845_4E46;

/// Pages have 2^12 bytes.
const PAGE_SHIFT: u16 = 12;

/// "LibxlFmt".
const LIBXL_IDENT: u64 = 0x4C69_6278_6C46_6D74;

/// The only version of the libxl stream.
const LIBXL_VERSION: u32 = 2;

/// What an image header says (libxc migration stream, "Image Header").
#[derive(Clone, Copy, Debug, PartialEq, Eq)]
pub struct ImageHeader {
    pub version: u32,
}

/// What a domain header says (libxc migration stream, "Domain Header").
#[derive(Clone, Copy, Debug, PartialEq, Eq)]
pub struct DomainHeader {
    pub kind: Kind,
    /// The version of Xen that wrote the stream.
    pub major: u32,
    pub minor: u32,
}

/// What the header of a libxl stream says (libxl migration stream, "Header").
#[derive(Clone, Copy, Debug, PartialEq, Eq)]
pub struct LibxlHeader {
    /// Whether the stream was made from a legacy one.
    pub legacy: bool,
}

impl ImageHeader {
    ghost use Rattle.mig_headers.specs.HeaderValues.{image_header_in};

    /// What is wrong with the first 8 bytes of an image.
    pub fn marker_fault(bytes: &[u8; 8]) -> Option<Cause>
        ensures fault { result ≡ fault_of_marker bytes.now }
        ensures none { (result ≡ None) ↔ (be64 bytes.now 0 ≡ marker) }
    {
        if u64_be(bytes, 0) != MARKER {
            return Some(Cause::NotStream);
        }
        None
    }

    /// Reads the 16 bytes behind the marker: the header, or its first fault in the order of the causes (libxc migration
    /// stream, "Image Header").
    pub fn decode(rest: &[u8; 16]) -> Result<ImageHeader, Cause>
        ensures value { result ≡ image_header_in rest.now }
        ensures spelled { (header : ImageHeader) → (result ≡ Ok header) ↔ IsImageHeader (behind_marker rest.now) header.version }
    {
        ImageHeader::read_fields(rest)
    }

    /// The header in these bytes, or its first fault.
    fn read_fields(rest: &[u8; 16]) -> Result<ImageHeader, Cause>
        ensures { result ≡ image_header_in rest.now }
    {
        if u32_be(rest, 0) != IMAGE_ID {
            return Err(Cause::BadId);
        }
        let version = u32_be(rest, 4);
        if version != 2 && version != 3 {
            return Err(Cause::BadVersion(u64::from(version)));
        }
        if u16_be(rest, 8) % 2 == 1 {
            return Err(Cause::BigEndian);
        }
        Ok(ImageHeader { version })
    }

    /// The header's bytes; what a reader ignores is 0.
    #[tactic(auto, unfolding(crate::specs::Headers::image_header_of))]
    pub fn encode(&self) -> [u8; 24]
        ensures bytes { result ≡ image_header_of self.now.version }
    {
        let mut bytes = [0; 24];
        put_u64_be(&mut bytes, 0, MARKER);
        put_u32_be(&mut bytes, 8, IMAGE_ID);
        put_u32_be(&mut bytes, 12, self.version);
        bytes
    }
}

impl DomainHeader {
    ghost use Rattle.mig_headers.specs.HeaderValues.{domain_header_in};

    /// Reads the 16 bytes behind the image header: the header, or its first fault in the order of the causes (libxc
    /// migration stream, "Domain Header").
    #[tactic(auto, using(crate::proofs::HeaderLaws::domain_decoded))]
    pub fn decode(bytes: &[u8; 16]) -> Result<DomainHeader, Cause>
        ensures value { result ≡ domain_header_in bytes.now }
        ensures spelled { (header : DomainHeader) → (result ≡ Ok header) ↔ IsDomainHeader bytes.now header.kind header.major header.minor }
    {
        let kind = match u32_le(bytes, 0) {
            1 => Kind::Pv,
            2 => Kind::Hvm,
            number => return Err(Cause::BadKind(u64::from(number))),
        };
        let shift = u16_le(bytes, 4);
        if shift != PAGE_SHIFT {
            return Err(Cause::BadPageShift(u64::from(shift)));
        }
        Ok(DomainHeader {
            kind,
            major: u32_le(bytes, 8),
            minor: u32_le(bytes, 12),
        })
    }

    /// The header's bytes; what a reader ignores is 0.
    #[tactic(auto, unfolding(crate::specs::Headers::domain_header_of))]
    pub fn encode(&self) -> [u8; 16]
        ensures bytes { result ≡ domain_header_of self.now.kind self.now.major self.now.minor }
    {
        let number = match self.kind {
            Kind::Pv => 1,
            Kind::Hvm => 2,
        };
        let mut bytes = [0; 16];
        put_u32_le(&mut bytes, 0, number);
        put_u16_le(&mut bytes, 4, PAGE_SHIFT);
        put_u32_le(&mut bytes, 8, self.major);
        put_u32_le(&mut bytes, 12, self.minor);
        bytes
    }
}

impl LibxlHeader {
    ghost use Rattle.mig_headers.specs.HeaderValues.{libxl_header_in};

    /// Whether these are the first 8 bytes of a libxl stream.
    pub fn is_ident(bytes: &[u8; 8]) -> bool
        ensures { result ≡ (be64 bytes.now 0 == libxl_ident) }
    {
        u64_be(bytes, 0) == LIBXL_IDENT
    }

    /// Reads the 8 bytes behind the ident: the header, or its first fault in the order of the causes (libxl migration
    /// stream, "Header").
    pub fn decode(rest: &[u8; 8]) -> Result<LibxlHeader, Cause>
        ensures value { result ≡ libxl_header_in rest.now }
        ensures spelled { (header : LibxlHeader) → (result ≡ Ok header) ↔ IsLibxlHeader (behind_ident rest.now) header.legacy }
    {
        LibxlHeader::read_fields(rest)
    }

    /// The header in these bytes, or its first fault.
    fn read_fields(rest: &[u8; 8]) -> Result<LibxlHeader, Cause>
        ensures { result ≡ libxl_header_in rest.now }
    {
        let version = u32_be(rest, 0);
        if version != LIBXL_VERSION {
            return Err(Cause::BadVersion(u64::from(version)));
        }
        let options = u32_be(rest, 4);
        if options % 2 == 1 {
            return Err(Cause::BigEndian);
        }
        Ok(LibxlHeader {
            legacy: options / 2 % 2 == 1,
        })
    }

    /// The header's bytes; what a reader ignores is 0.
    #[tactic(auto, unfolding(crate::specs::Headers::libxl_header_of))]
    pub fn encode(&self) -> [u8; 16]
        ensures bytes { result ≡ libxl_header_of self.now.legacy }
    {
        let mut bytes = [0; 16];
        put_u64_be(&mut bytes, 0, LIBXL_IDENT);
        put_u32_be(&mut bytes, 8, LIBXL_VERSION);
        put_u32_be(&mut bytes, 12, if self.legacy { 2 } else { 0 });
        bytes
    }
}
