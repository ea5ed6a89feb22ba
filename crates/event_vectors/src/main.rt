// Runs the cases of its files, one file after the other, and prints a line for each setup, event and packet. They act on one
// interface and one page, one after the other.
#![tactic(auto)]

ghost use Rattle.interface.specs.States.{Good, state_of};

mod guest;

use case_tools::BUFFER;
use cases::{Case, Cases};
use interface::Interface;

// The kinds, which are octets of the case files, that the interface has a part in, of which the last is the guest's too; the others are the guest's.
const SET_UP: u8 = 0;

const EVENT: u8 = 3;

const PACKET: u8 = 4;

const COUNTS: u8 = 7;

fn main(rt: HostRuntime) {
    let mut buffer = io::large_buffer();
    let mut page = [0u8; BUFFER];
    let mut i = host_cases::first_interface();
    for part in 0..cases::PARTS {
        // A file that is not there has no case.
        let n = cases::load_part(&rt, part, &mut buffer);
        run(&mut i, &mut page, &buffer[..n]);
    }
}

// Runs the cases of one file on the interface and the page that those before it left.
fn run(i: &mut Interface, page: &mut [u8; BUFFER], cases: &[u8])
    requires { Good (state_of i.old) }
    ensures { Good (state_of i.new) }
{
    for case in (Cases { rest: cases }) {
        answer(i, page, case);
    }
}

// Answers one case.
fn answer(i: &mut Interface, page: &mut [u8; BUFFER], case: Case)
    requires { Good (state_of i.old) }
    ensures { Good (state_of i.new) }
{
    match case.kind {
        SET_UP => host_cases::set_up(i, case.body),
        EVENT => host_cases::event(i, page, case.body),
        PACKET => packet(i, case.body),
        COUNTS => {
            guest::empty_areas(page, case.body);
            host_cases::recount(i, page);
        }
        _ => guest::act(page, case),
    }
}

// Where a packet goes.
fn packet(i: &Interface, body: &[u8])
    requires { Good (state_of i.now) }
{
    answer_text::print_steered(i.steer(body));
}
