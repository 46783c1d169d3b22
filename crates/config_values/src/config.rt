//! The configuration of a gateway.
ghost use Rattle.std.specs.Prelude.{◌<◌, ◌↔◌, IsTrue};
ghost use Rattle.std.specs.Int.{IsInRange};
ghost use Rattle.claim_table.specs.Claims.{move_places};

use crate::ends::are_ends;
use crate::lists::{Apart, are_apart, are_valid, is_apart_from};
use crate::presets::are_presets;
use crate::row_config::RowConfig;
use arrayvec::ArrayVec;
use claim_table::{MOVE_PLACES, Preset};
use n2k_id::Name;
use network_routes::{Address, Routes};
use readings::ROWS;
use sentence_text::Sfi;

/// How a gateway is configured.
#[derive(Clone, Drop)]
pub struct Config {
    /// The gateway's NAME.
    pub name: Name,
    /// The address that it begins with, 0 to 251.
    pub address: u8,
    /// The system function identifier by which it speaks on the network.
    pub sfi: Sfi,
    /// How many fast packets may be open, 1 to 256.
    pub fast_slots: u16,
    /// How many sessions of the transport protocol may be open, 1 to 32.
    pub iso_slots: u16,
    /// How many groups of lines may be open, 1 to 32.
    pub group_slots: u16,
    /// Whether true heading is said in THS besides.
    pub ths: bool,
    /// The devices whose addresses are known before they claim.
    pub presets: ArrayVec<Preset, 253>,
    /// Whom each row is taken from and how it is said, in the order of the rows.
    pub rows: [RowConfig; ROWS],
    /// Whom the network is heard from, in order of preference.
    pub net_sources: ArrayVec<Sfi, 32>,
    /// Where the links listen and send.
    pub ends: Ends,
}

/// Where the links to the bus and to the network listen and send.
#[derive(Clone, Drop)]
pub struct Ends {
    /// Where frames from the bus come to.
    pub bus_listen: Address,
    /// Where frames to the bus go.
    pub bus_send: Address,
    /// Where datagrams from the network come to.
    pub net_listen: Address,
    /// Where what is sent to a transmission group goes.
    pub net: Routes,
}

/// The most messages of each kind that may be open.
const MOST_FAST_SLOTS: u16 = 256;

const MOST_ISO_SLOTS: u16 = 32;

const MOST_GROUP_SLOTS: u16 = 32;

impl Config {
    ghost use Rattle.std.specs.Prelude.{◌↔◌, IsTrue};
    ghost use Rattle.config_values.specs.Configs.{IsConfig};

    /// Whether each value is in its range, and nothing stands twice that may stand only once.
    pub fn valid(&self) -> bool
        ensures { IsTrue result ↔ IsConfig self.now }
    {
        is_address(self.address)
            && is_limit(self.fast_slots, MOST_FAST_SLOTS)
            && is_limit(self.iso_slots, MOST_ISO_SLOTS)
            && is_limit(self.group_slots, MOST_GROUP_SLOTS)
            && are_presets(self.name, self.address, self.presets.as_slice())
            && are_valid(self.rows.as_slice())
            && are_apart(self.net_sources.as_slice())
            && is_apart_from(&self.sfi, self.net_sources.as_slice())
            && are_ends(&self.ends)
    }
}

fn is_address(address: u8) -> bool
    ensures { IsTrue result ↔ (address < move_places) }
{
    address < MOVE_PLACES
}

fn is_limit(slots: u16, most: u16) -> bool
    ensures { IsTrue result ↔ IsInRange 1 most slots }
{
    (1..=most).contains(&slots)
}

impl Apart for Sfi {
    ghost use Rattle.std.specs.Prelude.{◌≢◌};

    ghost are_apart = { λ s t. s ≢ t };

    fn is_apart(&self, other: &Sfi) -> bool {
        self != other
    }
}
