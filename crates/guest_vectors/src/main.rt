// Runs the cases of its files, one file after the other, and prints a line for each setup, start and event. They act on one
// guest, one interface of the host and one page, one after the other.
#![tactic(auto)]

ghost use Rattle.interface.specs.States.{Good, state_of};
ghost use Rattle.guest_steps.specs.Guest.{Good as GoodGuest, state_of as guest_of};

use case_tools::{BUFFER, patch};
use cases::{Case, Cases};
use guest_cases::new_guest;
use guest_steps::Guest;
use interface::Interface;

// The kinds, which are octets of the case files: a new guest, and behind the guest's calls other counts in the page, which both
// ends take their own from, the host's two calls, and octets put into the buffer.
const GUEST_SET_UP: u8 = 0;

const COUNTS: u8 = 6;

const HOST_SET_UP: u8 = 7;

const HOST_EVENT: u8 = 8;

const PATCH: u8 = 9;

const FILL: u8 = 10;

fn main(rt: HostRuntime) {
    let mut buffer = io::large_buffer();
    let mut page = [0u8; BUFFER];
    let mut guest = new_guest();
    let mut interface = host_cases::first_interface();
    for part in 0..cases::PARTS {
        // A file that is not there has no case.
        let n = cases::load_part(&rt, part, &mut buffer);
        run(&mut guest, &mut interface, &mut page, &buffer[..n]);
    }
}

// Runs the cases of one file on the ends and the page that those before it left.
fn run(guest: &mut Guest, interface: &mut Interface, page: &mut [u8; BUFFER], cases: &[u8])
    requires { GoodGuest (guest_of guest.old) × Good (state_of interface.old) }
    ensures { GoodGuest (guest_of guest.new) × Good (state_of interface.new) }
{
    for case in (Cases { rest: cases }) {
        answer_guest(guest, page, case);
        answer_host(interface, page, case);
    }
}

// The guest's part in a case.
fn answer_guest(guest: &mut Guest, page: &mut [u8; BUFFER], case: Case)
    requires { GoodGuest (guest_of guest.old) }
    ensures { GoodGuest (guest_of guest.new) }
{
    match case.kind {
        GUEST_SET_UP => {
            case_tools::print_word(b"guest set up\n");
            *guest = new_guest();
        }
        guest_cases::START_GET_FLAGS..=guest_cases::EVENT => guest_cases::call(guest, page, case),
        COUNTS => {
            patch(page, case.body);
            guest_cases::recount(guest, page);
        }
        PATCH => patch(page, case.body),
        FILL => case_tools::fill(page, case.body),
        _ => {}
    }
}

// The host's part in a case, which comes after the guest's.
fn answer_host(interface: &mut Interface, page: &mut [u8; BUFFER], case: Case)
    requires { Good (state_of interface.old) }
    ensures { Good (state_of interface.new) }
{
    match case.kind {
        HOST_SET_UP => host_cases::set_up(interface, case.body),
        HOST_EVENT => host_cases::event(interface, page, case.body),
        COUNTS => host_cases::recount(interface, page),
        _ => {}
    }
}
