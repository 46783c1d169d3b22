//! Where a link listens and sends: an IPv4 address and a port, as text.
ghost use Rattle.std.specs.Prelude.{◌≡◌, ◌==◌, ◌↔◌, IsTrue};
ghost use Rattle.std.specs.List.{position};
ghost use Rattle.config_values.specs.Endpoints.{IsEndpoint, IsHost, IsPort};

use std::net::Ipv4Addr;
use std::str;

/// Whether the text is an IPv4 address, a colon and a port.
pub fn is_endpoint(text: &[u8]) -> bool
    ensures { IsTrue result ↔ IsEndpoint text.now }
{
    match first_colon(text) {
        None => false,
        Some(colon) => is_host(&text[..colon]) && is_port(&text[colon + 1..]),
    }
}

fn first_colon(text: &[u8]) -> Option<usize>
    ensures { result ≡ position (λ byte. byte == 58) text.now }
{
    text.iter().position(|byte| *byte == b':')
}

/// Whether the text is an IPv4 address.
fn is_host(text: &[u8]) -> bool
    ensures { IsTrue result ↔ IsHost text.now }
{
    Ipv4Addr::parse_ascii(text).is_ok()
}

/// Whether the text is a port of 1 to 65535, without leading zeros.
#[tactic(auto, using(crate::proofs::Texts::port_from, crate::proofs::Texts::port_to))]
fn is_port(text: &[u8]) -> bool
    ensures { IsTrue result ↔ IsPort text.now }
{
    match str::from_utf8(text) {
        Err(_) => false,
        Ok(digits) => !matches!(text.first(), Some(b'+' | b'0')) && digits.parse::<u16>().is_ok(),
    }
}
