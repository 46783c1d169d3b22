//! Where a link listens or sends, as it is configured: `127.0.0.1:60001`.
ghost use Rattle.std.specs.Prelude.{◌≡◌, ◌≤◌, IsTrue, length};
ghost use Rattle.config_values.specs.Endpoints.{IsEndpoint};
ghost use Rattle.gate_config.specs.Texts.{is_endpoint, loopback};

use arrayvec::ArrayVec;
use config_document::Written;
use config_values::is_endpoint;
use network_routes::Address;
use unit_fraction::write_decimal;

/// Where a link listens or sends.
#[derive(Drop)]
pub(crate) struct Endpoint(pub(crate) Address);

impl Written for Endpoint {
    ghost use Rattle.config_values.specs.Endpoints.{IsEndpoint};
    ghost use Rattle.gate_config.specs.Texts.{endpoint_in};

    ghost said_by = { endpoint_in };

    ghost is_valid = { λ e. IsEndpoint e.0.items };

    fn of(text: &[u8]) -> Option<Endpoint> {
        let mut address = ArrayVec::new();
        if !is_written(text) || address.try_extend_from_slice(text).is_err() {
            return None;
        }
        Some(Endpoint(address))
    }
}

/// Whether the text is an endpoint.
fn is_written(text: &[u8]) -> bool
    ensures said { result ≡ is_endpoint text.now }
    ensures valid { IsTrue result → IsEndpoint text.now }
{
    is_endpoint(text)
}

/// Where a link listens or sends if nothing is configured: at this port of the machine itself.
#[tactic(auto, using(crate::proofs::Loopback::is_endpoint))]
pub(crate) fn loopback(port: u16) -> Endpoint
    requires { 1 ≤ port }
    ensures text { result ≡ record { 0 = record { items = loopback port } } }
    ensures valid { IsEndpoint result.0.items }
{
    let text = loopback_text(port);
    let mut address = ArrayVec::new();
    let _fits = address.try_extend_from_slice(text.as_slice());
    Endpoint(address)
}

fn loopback_text(port: u16) -> ArrayVec<u8, 82>
    ensures text { result.items ≡ loopback port }
    ensures length { length result.items ≤ 64 }
{
    let mut text = ArrayVec::new();
    let _fits = text.try_extend_from_slice(b"127.0.0.1:");
    let _fits = write_decimal(false, u64::from(port), 0, &mut text);
    text
}
