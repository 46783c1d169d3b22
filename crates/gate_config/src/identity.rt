//! The keys of `identity`: what the gateway says of itself on the bus.
ghost use Rattle.std.specs.Prelude.{◌≡◌, IfOk};
ghost use Rattle.config_document.specs.Places.{place_of};
ghost use Rattle.config_document.specs.Texts.{IsProductText};
ghost use Rattle.gate_config.specs.Keys.{identity, texts};
ghost use Rattle.gate_config.specs.Reading.{table_in};
ghost use Rattle.settings.specs.Settings.{IsProduct};

use crate::keys::{number_or, section, text_or};
use crate::words::{CODE, IDENTITY, IDENTITY_PREFIX, LOAD, MODEL, SERIAL, SOFTWARE, VERSION};
use arrayvec::ArrayVec;
use bus_identity::Product;
use config_document::{ConfigFault, ProductText, Section};

pub(crate) const KEYS: [&str; 6] = [CODE, MODEL, SOFTWARE, VERSION, SERIAL, LOAD];

#[tactic(auto, unfolding(crate::specs::Keys::identity))]
pub(crate) fn identity_keys(document: &Section) -> Result<Product, ConfigFault>
    ensures said { result ≡ table_in identity tt (place_of document.now) }
    ensures valid { IfOk result IsProduct }
{
    let table = section(document, IDENTITY, IDENTITY_PREFIX)?;
    let code = number_or(&table, CODE, 0, 65_535, 0)? as u16;
    let (ProductText(model), ProductText(software), ProductText(version), ProductText(serial)) =
        text_keys(&table)?;
    let load = number_or(&table, LOAD, 0, 252, 1)? as u8;
    Ok(Product {
        code,
        model,
        software,
        version,
        serial,
        load,
    })
}

/// The model, its software and version, and the serial number.
type Texts = (ProductText, ProductText, ProductText, ProductText);

/// The texts by which the device is known.
#[tactic(auto, unfolding(crate::specs::Keys::texts))]
fn text_keys(table: &Section) -> Result<Texts, ConfigFault>
    ensures said { result ≡ texts.read tt (place_of table.now) }
    ensures valid { IfOk result (λ texts. IsProductText texts.0.0.items × IsProductText texts.1.0.items × IsProductText texts.2.0.items × IsProductText texts.3.0.items) }
{
    let model = text_or(table, MODEL, default_text(b"shipgate"))?;
    let software = text_or(table, SOFTWARE, default_text(b"1"))?;
    let version = text_or(table, VERSION, default_text(b"1"))?;
    let serial = text_or(table, SERIAL, default_text(b"1"))?;
    Ok((model, software, version, serial))
}

/// A text that stands where none is configured.
fn default_text(text: &[u8]) -> ProductText
    requires { IsProductText text.now }
    ensures { result ≡ record { 0 = record { items = text.now } } }
{
    let mut kept = ArrayVec::new();
    let _fits = kept.try_extend_from_slice(text);
    ProductText(kept)
}
