//! What the gateway is, as it is said in product information (PGN 126996), after canboat's description:
//!
//! version of the NMEA 2000 database (u16 at byte 0, in thousandths), product code (u16 at 2), model (32 bytes at 4), software
//! version (32 at 36), model version (32 at 68), serial number (32 at 100), level of certification (byte 132), load (byte 133).
//! Numbers stand low byte first; a text that is shorter than its field is filled with 255.

ghost use Rattle.std.specs.Prelude.{◌≡◌, ◌+◌, ◌≤◌, ◌++◌, length};
ghost use Rattle.bus_identity.specs.Payloads.{information_of, text_field};

use arrayvec::ArrayVec;

/// What the gateway is. Texts have at most 32 bytes.
#[derive(Clone, Drop)]
pub struct Product {
    /// The product code that NMEA gave the maker.
    pub code: u16,
    /// The name of the model.
    pub model: ArrayVec<u8, 32>,
    /// The version of the software.
    pub software: ArrayVec<u8, 32>,
    /// The version of the model.
    pub version: ArrayVec<u8, 32>,
    /// The serial number.
    pub serial: ArrayVec<u8, 32>,
    /// How much current it takes from the bus, in units of 50 mA.
    pub load: u8,
}

/// The payload of an answer, at most that of product information.
pub(crate) type Payload = ArrayVec<u8, 134>;

/// The version of the NMEA 2000 database, in thousandths.
const DATABASE_VERSION: u16 = 2_100;

/// How many bytes the field of a text has.
const TEXT_BYTES: usize = 32;

/// The payload of product information.
pub(crate) fn information_of(product: &Product) -> Payload
    ensures payload { result.items ≡ information_of product.now }
    ensures length { length result.items ≡ 134 }
{
    let mut out = Payload::new();
    append(&DATABASE_VERSION.to_le_bytes(), &mut out);
    append(&product.code.to_le_bytes(), &mut out);
    append_text(&product.model, &mut out);
    append_text(&product.software, &mut out);
    append_text(&product.version, &mut out);
    append_text(&product.serial, &mut out);
    append(&[0, product.load], &mut out);
    out
}

/// Appends the field of a text.
fn append_text(text: &ArrayVec<u8, 32>, out: &mut Payload)
    requires room { length out.old.items + 32 ≤ 134 }
    ensures items { out.new.items ≡ out.old.items ++ text_field text.now.items }
    ensures length { length out.new.items ≡ length out.old.items + 32 }
{
    append(&text_field(text.as_slice()), out);
}

/// A text, and 255 in each place beyond it.
fn text_field(text: &[u8]) -> [u8; TEXT_BYTES]
    requires { length text.now ≤ 32 }
    ensures { result ≡ text_field text.now }
{
    let mut field = [0xFF; TEXT_BYTES];
    field[..text.len()].copy_from_slice(text);
    field
}

/// Appends bytes for which there is room.
pub(crate) fn append(bytes: &[u8], out: &mut Payload)
    requires room { length out.old.items + length bytes.now ≤ 134 }
    ensures items { out.new.items ≡ out.old.items ++ bytes.now }
{
    let _fits = out.try_extend_from_slice(bytes);
}
