// The request that an interface holds, carried out and acked.
#![tactic(auto)]

ghost use Rattle.std.specs.Prelude.{◌≡◌, ◌^◌, ◌<◌};
ghost use Rattle.messages.specs.Requests.{request_of, ack_payload, ack_stored, status_told};
ghost use Rattle.messages.specs.Inner.{Leaves};
ghost use Rattle.interface.specs.States.{state_of, settings_in};
ghost use Rattle.interface.specs.Events.{carried_over};

use interface::Interface;
use messages::{ALL_FLAGS, Ack, Refusal, RequestType, SUCCESS};

// Carries out the request that the interface holds, which is whole: its effect goes into the settings, its ack is owed, and the
// next request begins. It is safe for any queue count; the promise is for one that fits in an octet, since C's struct has it in
// eight, and a table has one octet for each queue.
pub fn carry_out(i: &mut Interface)
    ensures { i.old.queues < 2 ^ 8 → state_of i.new ≡ carried_over (state_of i.old) }
{
    let kind = octets::read_u32(&i.header, 0);
    let size = octets::read_u32(&i.header, messages::SIZE_AT);
    let judged = judge(i, kind, size);
    let ack = answer(kind, judged);
    // Through a variable: the check covers no array that goes from field to field.
    let octets = ack.octets;
    i.ack = octets;
    i.incoming.taken = 0;
    i.outgoing.length = ack.length as u64;
    i.outgoing.written = 0;
}

// Judges the request, and puts its effect into the settings if it passes. Its type is the header's number: any can stand there.
fn judge(i: &mut Interface, kind: u32, size: u32) -> Result<(), Refusal>
    ensures settings_after { i.old.queues < 2 ^ 8
        → Leaves (request_of kind) (settings_in i.old) size i.old.payload (status_told result) (settings_in i.new) }
    ensures ring_stays { ((state_of i.new).incoming ≡ (state_of i.old).incoming)
        × ((state_of i.new).outgoing ≡ (state_of i.old).outgoing) }
{
    match RequestType::try_from(kind)? {
        RequestType::GetFlags => judging::get_flags(size),
        RequestType::SetFlags => judging::set_flags(&mut i.flags, size, &i.payload),
        RequestType::SetKey => judging::set_key(&mut i.key, size, &i.payload),
        RequestType::SetMapping => judging::set_mapping(
            (i.queues % 256) as u8,
            &mut i.entries,
            &mut i.entry_count,
            size,
            &i.payload,
        ),
    }
}

// The ack to a request of this type that is carried out or refused.
fn answer(kind: u32, judged: Result<(), Refusal>) -> Ack
    ensures { result ≡ ack_stored (ack_payload (request_of kind) (status_told judged)) }
{
    match judged {
        // What is supported, whatever is set.
        Ok(()) if kind == messages::GET_FLAGS => messages::with_flags(ALL_FLAGS),
        Ok(()) => messages::with_status(SUCCESS),
        Err(refusal) => messages::with_status(refusal.into()),
    }
}
