// What the guest does to the page between the calls.
use case_tools::BUFFER;
use cases::{Case, print_cut};
use page::{REQ_PROD, RSP_CONS};

// The kinds, octets of the case files: octets put at a place, octets made there, octets sent, and octets of acks taken. Those between are not the
// guest's alone.
const PATCH: u8 = 1;

const FILL: u8 = 2;

const SEND: u8 = 5;

const TAKE: u8 = 6;

pub(crate) fn act(page: &mut [u8; BUFFER], case: Case) {
    match case.kind {
        PATCH => case_tools::patch(page, case.body),
        FILL => case_tools::fill(page, case.body),
        SEND => send(page, case.body),
        TAKE => take(page, case.body),
        _ => {}
    }
}

// Puts octets into the request area behind those sent before.
fn send(page: &mut [u8; BUFFER], body: &[u8]) {
    let count = octets::read_u32(page, REQ_PROD) as usize;
    for (i, octet) in body.iter().enumerate() {
        let place = (count + i) % page::AREA as usize;
        page[page::REQUESTS + place] = *octet;
    }
    // The count in the page has 32 bits, and 0 comes after the highest.
    let sent = (count + body.len()) % (1 << 32);
    octets::write_u32(page, REQ_PROD, sent as u32);
}

// So many more octets of acks have been read.
fn take(page: &mut [u8; BUFFER], body: &[u8]) {
    if body.len() < 4 {
        print_cut();
        return;
    }
    let taken = octets::read_u32(page, RSP_CONS);
    let more = octets::read_u32(body, 0);
    octets::write_u32(page, RSP_CONS, taken.wrapping_add(more));
}

// Counts by which nothing stands unread in either area. The interface then takes its own two from the page.
pub(crate) fn empty_areas(page: &mut [u8; BUFFER], body: &[u8]) {
    if body.len() < 8 {
        print_cut();
        return;
    }
    let requests = octets::read_u32(body, 0);
    let responses = octets::read_u32(body, 4);
    octets::write_u32(page, page::REQ_CONS, requests);
    octets::write_u32(page, REQ_PROD, requests);
    octets::write_u32(page, RSP_CONS, responses);
    octets::write_u32(page, page::RSP_PROD, responses);
}
