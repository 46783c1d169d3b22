//! The parts beside the gateway.

use ais_bridge::{AisBridge, ShipsPlace};
use bus_answers::{Answering, AnswersPlace};
use further_bridge::{FurtherBridge, QuantitiesPlace};
use joined_heading::{HeadingPlace, JoinedHeading};
use joined_rmc::{Joining, RmcPlace};
use navigation::{NavPlace, Navigation};
use own_address::{AddressPlace, OwnAddress};
use parts::{Lane, Seldom};
use source_changes::{SourceWatch, SourcesPlace};
use supervision::{Supervision, SupervisionPlace};

/// The parts beside the gateway, in the order in which their emits go out.
pub(crate) type Beside = (
    Option<Lane<Answering, AnswersPlace>>,
    (
        Option<Lane<Joining, RmcPlace>>,
        (Option<Lane<AisBridge, ShipsPlace>>, Seldom<Further>),
    ),
);

/// Those that further keys ask for.
type Further = (
    Option<Lane<FurtherBridge, QuantitiesPlace>>,
    (
        Option<Lane<SourceWatch, SourcesPlace>>,
        (
            Option<Lane<OwnAddress, AddressPlace>>,
            (
                Option<Lane<JoinedHeading, HeadingPlace>>,
                (
                    Option<Lane<Navigation, NavPlace>>,
                    (Option<Lane<Supervision, SupervisionPlace>>, ()),
                ),
            ),
        ),
    ),
);
