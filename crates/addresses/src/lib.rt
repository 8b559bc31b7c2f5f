//! Where the unit listens and where its endpoints' clients are, as a settings file spells it. Who sent a datagram, by the address from which it
//! came and the source that it names; and unknown senders.
//!
//! Read `clients` first, then `served_file`, the settings of a unit with all places, and `mixed`, what its clients may not share. `directory` is
//! where what is sent goes, as all threads that send look it up, also to addresses that are learned. `seating` has the seats whose clients' SSRCs are
//! learned, which are at `seat_places`. `sender_table` is who sent a datagram; it stands on `endpoints_by_key`, who is at a key. `learners` are whose
//! addresses are learned, each with its `learned_address`, within its `network`; `listeners` the endpoints that are present whatever they say, for whom
//! a report is to be made. `address_book` is all of these by the settings. `latest` are those whom nobody knows, and `names` is what the
//! others are called. `laws` says under whose SSRC a client is heard.
#![tactic(auto)]

mod address_book;
mod clients;
mod directory;
mod endpoints_by_key;
mod latest;
pub mod laws;
mod learned_address;
mod learners;
mod listeners;
mod mixed;
mod names;
mod network;
mod seat_places;
mod seating;
mod sender_table;
mod served_file;

pub use address_book::{endpoint_at, learners_of, listeners_of, senders_of};
pub use clients::{
    AddressKey, Addresses, Client, ClientFault, Listening, Location, is_reachable, read_clients,
};
pub use directory::{Directory, Naming};
pub use endpoints_by_key::{EndpointsByKey, Occupants};
pub use latest::{MAX_STRANGERS, Stranger, Strangers};
pub use learned_address::{Kind, LearnedAddress};
pub use learners::{Arrived, Learner, Learners};
pub use listeners::{Listeners, Standing};
pub use names::endpoint_names;
pub use network::{Network, read_network};
pub use policy::Rules;
pub use seating::Seating;
pub use sender_table::{FirstPacket, SenderTable, SourceAddress};
pub use served_file::{ServedSettings, read_served};
