// The guest's part in the cases, and the lines that it prints.
#![tactic(auto)]

ghost use Rattle.guest_steps.specs.Guest.{Good, state_of};

use case_tools::{BUFFER, print_number, print_word};
use cases::Case;
use guest_messages::AckRead;
use guest_steps::{Ask, Guest, MAX_ACK_PAYLOAD, MAX_REQUEST, Progress, Refusal};
use messages::HEADER;
use ring::{Receiving, Sending};

// The kinds of the guest's calls, as octets of the case files: its four starts, of which the last is that of a mapping, and an
// event.
pub const START_GET_FLAGS: u8 = 1;

const START_SET_FLAGS: u8 = 2;

const START_SET_KEY: u8 = 3;

pub const EVENT: u8 = 5;

// A new guest, from a struct in which setup has every octet to write.
#[tactic(auto, using(crate::proofs::Setup::setups))]
pub fn new_guest() -> Guest
    ensures { Good (state_of result) }
{
    let mut guest = Guest {
        phase: 255,
        outgoing: Sending {
            length: 255,
            written: 255,
            prod: 255,
        },
        incoming: Receiving {
            taken: 255,
            cons: 255,
        },
        request: [255; MAX_REQUEST],
        header: [255; HEADER],
        payload: [255; MAX_ACK_PAYLOAD],
    };
    frontend::set_up(&mut guest);
    guest
}

// A call on so many octets of the buffer. The line has all octets, those behind the lent ones too.
pub fn call(guest: &mut Guest, page: &mut [u8], case: Case)
    requires { Good (state_of guest.old) }
    ensures { Good (state_of guest.new) }
{
    if case.body.len() < 2 {
        cases::print_cut();
        return;
    }
    let n = cases::number_up_to(page.len(), case.body);
    call_on(guest, &mut page[..n], case.kind, &case.body[2..]);
    print_left(guest, &page[..]);
}

// Makes the call, and prints what it answers.
fn call_on(guest: &mut Guest, page: &mut [u8], kind: u8, given: &[u8])
    requires { Good (state_of guest.old) }
    ensures { Good (state_of guest.new) }
{
    match kind {
        EVENT => print_event(frontend::event(guest, page)),
        START_GET_FLAGS => start(guest, page, Ask::GetFlags),
        START_SET_FLAGS => start(guest, page, Ask::SetFlags(flags_in(given))),
        START_SET_KEY => start(guest, page, Ask::SetKey(given)),
        _ => {
            // A number of entries that is cut short or too high counts as none.
            let count = cases::number_within(case_tools::MAX_GIVEN, given).unwrap_or(0);
            let entries = case_tools::entries_in(given, 2, count);
            start(guest, page, Ask::SetMapping(&entries[..count]));
        }
    }
}

// Starts a request, and prints what the start answers.
fn start(guest: &mut Guest, page: &mut [u8], ask: Ask)
    requires { Good (state_of guest.old) }
    ensures { Good (state_of guest.new) }
{
    let answer = frontend::start(guest, page, ask);
    print_number(b"guest ", answer.map_or_else(u32::from, u32::from) as u64);
}

fn flags_in(given: &[u8]) -> u64 {
    if given.len() < 8 {
        return 0;
    }
    octets::read_u64(given, 0)
}

// The number of an event's answer, and what the ack says where it is here.
fn print_event(answer: Result<Progress, Refusal>) {
    print_number(b"guest ", answer.map_or_else(u32::from, u32::from) as u64);
    if let Ok(Progress::Acked(ack)) = answer {
        print_word(b" ");
        print_ack(ack);
    }
}

// What an ack says: its status, or status 0 and the flags.
pub fn print_ack(ack: AckRead) {
    match ack {
        AckRead::Status(status) => print_number(b"status ", status as u64),
        AckRead::Flags(flags) => print_number(b"status 0 flags ", flags as u64),
    }
}

// The rest of the line: the guest's phase and own counts, and all octets of the buffer.
fn print_left(guest: &Guest, page: &[u8]) {
    case_tools::print_form(
        b" phase # req_prod # rsp_cons # page $\n",
        &[
            guest.phase,
            guest.outgoing.prod,
            guest.incoming.cons,
            case_tools::digest(page),
        ],
    );
}

// Takes the guest's own counts from the page, so that a case can begin near their end.
pub fn recount(guest: &mut Guest, page: &[u8; BUFFER])
    requires { Good (state_of guest.old) }
    ensures { Good (state_of guest.new) }
{
    guest.outgoing.prod = octets::read_u32(page, page::REQ_PROD) as u64;
    guest.incoming.cons = octets::read_u32(page, page::RSP_CONS) as u64;
}
