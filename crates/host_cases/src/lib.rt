// The calls of the host's interface that more than one test program makes, each with the line that it prints.
#![tactic(auto)]

ghost use Rattle.interface.specs.States.{Good, state_of};

use case_tools::{BUFFER, digest, print_form, print_number, print_word};
use interface::Interface;

// The interface that a program begins with: set up with one queue.
#[tactic(auto, unfolding(interface::specs::States::set_up_outcome))]
pub fn first_interface() -> Interface
    ensures { Good (state_of result) }
{
    let mut interface = Interface::zeroed();
    interface.set_up(1).unwrap();
    interface
}

// A new interface with a queue count. Where that is refused, the one that there is stays.
pub fn set_up(i: &mut Interface, body: &[u8])
    requires { Good (state_of i.old) }
    ensures { Good (state_of i.new) }
{
    if body.len() < 4 {
        cases::print_cut();
        return;
    }
    match i.set_up(octets::read_u32(body, 0)) {
        Ok(()) => print_word(b"set up\n"),
        Err(refusal) => print_form(b"refused #\n", &[u32::from(refusal) as u64]),
    }
}

// An event on so many octets of the buffer. The line has all octets, those behind the lent ones too.
pub fn event(i: &mut Interface, page: &mut [u8], body: &[u8])
    requires { Good (state_of i.old) }
    ensures { Good (state_of i.new) }
{
    let n = cases::number_up_to(page.len(), body);
    let answer = backend::event(i, &mut page[0..n]);
    print_number(b"answer ", answer.map_or_else(u32::from, u32::from) as u64);
    print_left(i, &page[..]);
}

// The rest of the line: the interface's own counts, all octets of the buffer, and the settings but for the queue count.
fn print_left(i: &Interface, page: &[u8]) {
    print_form(
        b" req_cons # rsp_prod # page $ flags # entries # key $ table $\n",
        &[
            i.incoming.cons,
            i.outgoing.prod,
            digest(page),
            i.flags,
            i.entry_count,
            digest(&i.key),
            digest(&i.entries),
        ],
    );
}

// Takes the interface's own counts from the page, so that a case can begin near their end.
pub fn recount(i: &mut Interface, page: &[u8; BUFFER])
    requires { Good (state_of i.old) }
    ensures { Good (state_of i.new) }
{
    i.incoming.cons = octets::read_u32(page, page::REQ_CONS) as u64;
    i.outgoing.prod = octets::read_u32(page, page::RSP_PROD) as u64;
}
