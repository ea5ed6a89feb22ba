// The stages of a start: what it finds, the request put into its place, and the request begun.
#![tactic(auto)]

ghost use Rattle.std.specs.Prelude.{◌≡◌, ◌≤◌, IfOk};
ghost use Rattle.octets.specs.Prelude.{length};
ghost use Rattle.page.specs.Page.{page_size, area_size};
ghost use Rattle.guest_messages.specs.Writer.{after, written};
ghost use Rattle.guest_steps.specs.Guest.{max_request, outstanding, state_of};
ghost use Rattle.guest_steps.specs.Calls.{found, wrote_on, message_of, readied, left};
ghost use Rattle.guest_steps.specs.Inner.{CountsFit, readiness_of};

use guest_messages::WriteRefusal;
use guest_steps::{Ask, Guest, IDLE, OUTSTANDING, Progress, Refusal};

// What a start finds: beside what every call finds, no request may be outstanding.
#[tactic(auto, unfolding(guest_steps::specs::Calls::readied))]
pub fn ready(guest: &Guest, page: &[u8]) -> Result<u32, Refusal>
    requires { CountsFit (state_of guest.now) }
    ensures value { let g = state_of guest.now in readiness_of result ≡ readied (found g page.now) g }
    ensures within { IfOk result (λ room. (length page.now ≡ page_size) × (room ≤ area_size)) }
{
    let counts = guest.find(page)?;
    if guest.phase != IDLE {
        return Err(Refusal::Outstanding);
    }
    Ok(counts.room)
}

// Puts the message of what is asked for into its place, and answers its length.
pub fn write_request(ask: Ask, place: &mut [u8]) -> Result<usize, WriteRefusal>
    ensures { after result place.new ≡ written (message_of ask.entry) place.old }
{
    match ask {
        Ask::GetFlags => guest_messages::write_get_flags(place),
        Ask::SetFlags(flags) => guest_messages::write_set_flags(place, flags),
        Ask::SetKey(key) => guest_messages::write_set_key(place, key),
        Ask::SetMapping(entries) => guest_messages::write_set_mapping(place, entries),
    }
}

// Makes the request of n octets, which is in its place, the outstanding one, and writes as much of it as fits.
pub fn begin(guest: &mut Guest, n: usize, room: u32, page: &mut [u8]) -> Progress
    requires page_len { (length page.old ≡ page_size) × (room ≤ area_size) × (n ≤ max_request) }
    requires counts_fit { CountsFit (state_of guest.old) }
    ensures { let g = state_of guest.old in left (Ok result) (state_of guest.new) page.new
        ≡ wrote_on (record g { phase = outstanding; length = n; written = 0 }) page.old room }
{
    guest.phase = OUTSTANDING;
    guest.outgoing.length = n as u64;
    guest.outgoing.written = 0;
    guest_writes::write_on(guest, room, page)
}
