// The guest's calls: a driver sets up its end of the ring, starts a request, is called at each event, and is handed the status.
// The host's page is not trusted: the guest's own counts are its own, and an ack that is none ends the exchange.
#![tactic(auto)]

mod events;
mod setup;
mod starting;

pub use events::event;
pub use setup::set_up;
pub use starting::{StartRefusal, start};
