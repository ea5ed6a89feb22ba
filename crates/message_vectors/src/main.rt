// Runs the cases of its files, one file after the other, and prints a line for each. Cases of requests act on the settings of
// one interface, one after the other.
#![tactic(auto)]

ghost use Rattle.std.specs.Prelude.{◌≡◌, ◌^◌, ◌≤◌, ◌<◌};
ghost use Rattle.octets.specs.Prelude.{length};

mod answers;

use cases::{Case, Cases, print_cut};
use guest_messages::WriteRefusal;
use interface::Interface;

// The kinds, which are octets of the case files: a new interface with a queue count, a request carried out, the writer's four calls, and an ack read.
const SET_UP: u8 = 0;

const REQUEST: u8 = 1;

const WRITE_GET_FLAGS: u8 = 2;

const WRITE_SET_KEY: u8 = 4;

const WRITE_SET_MAPPING: u8 = 5;

const READ: u8 = 6;

// The longest output buffer of a case.
const MAX_BUFFER: usize = 1100;

fn main(rt: HostRuntime) {
    let mut buffer = io::large_buffer();
    let mut i = at_setup(1);
    for part in 0..cases::PARTS {
        // A file that is not there has no case.
        let n = cases::load_part(&rt, part, &mut buffer);
        run(&mut i, &buffer[..n]);
    }
}

// An interface with any queue count, with no flags and a mapping of one entry.
fn at_setup(queues: u8) -> Interface
    ensures { result.queues ≡ queues }
{
    Interface {
        queues: u64::from(queues),
        ..host_cases::first_interface()
    }
}

// Runs the cases of one file on the settings that those before it left.
fn run(i: &mut Interface, cases: &[u8])
    requires { i.old.queues < 2 ^ 8 }
    ensures { i.new.queues < 2 ^ 8 }
{
    for case in (Cases { rest: cases }) {
        answer(i, case);
    }
}

// Answers one case.
fn answer(i: &mut Interface, case: Case)
    requires { i.old.queues < 2 ^ 8 }
    ensures { i.new.queues < 2 ^ 8 }
{
    match case.kind {
        SET_UP if case.body.len() > 0 => *i = at_setup(case.body[0]),
        REQUEST if case.body.len() >= messages::HEADER => request(i, case.body),
        WRITE_GET_FLAGS..=WRITE_SET_MAPPING => write(case),
        READ => read(case.body),
        _ => {}
    }
}

// Header and kept payload.
fn request(i: &mut Interface, body: &[u8])
    requires { (i.old.queues < 2 ^ 8) × (8 ≤ length body.now) }
    ensures { i.new.queues < 2 ^ 8 }
{
    i.header.copy_from_slice(&body[0..messages::HEADER]);
    // What stands behind the payload in the buffer is not to be looked at.
    i.payload = [238; messages::MAX_PAYLOAD];
    cases::keep(&mut i.payload, &body[messages::HEADER..]);
    requests::carry_out(i);
    answers::print_carried(i);
}

// The length of the output buffer, and what the request is to say. Octets that are not zero stand in the buffer before.
fn write(case: Case) {
    if case.body.len() < 2 {
        print_cut();
        return;
    }
    let room = cases::number_up_to(MAX_BUFFER, case.body);
    let mut buffer = [165; MAX_BUFFER];
    write_and_print(&mut buffer[0..room], case.kind, &case.body[2..]);
}

fn write_and_print(buffer: &mut [u8], kind: u8, given: &[u8]) {
    let written = write_into(buffer, kind, given);
    answers::print_written(written, &buffer[..]);
}

fn write_into(buffer: &mut [u8], kind: u8, given: &[u8]) -> Result<usize, WriteRefusal> {
    match kind {
        WRITE_GET_FLAGS => guest_messages::write_get_flags(buffer),
        WRITE_SET_KEY => guest_messages::write_set_key(buffer, given),
        WRITE_SET_MAPPING => write_mapping(buffer, given),
        _ => write_flags(buffer, given),
    }
}

fn write_flags(buffer: &mut [u8], given: &[u8]) -> Result<usize, WriteRefusal> {
    if given.len() < 8 {
        return Err(WriteRefusal::Value);
    }
    guest_messages::write_set_flags(buffer, octets::read_u64(given, 0))
}

fn write_mapping(buffer: &mut [u8], given: &[u8]) -> Result<usize, WriteRefusal> {
    let count = given.len() / 8;
    if count > case_tools::MAX_GIVEN {
        return Err(WriteRefusal::Value);
    }
    let entries = case_tools::entries_in(given, 0, count);
    guest_messages::write_set_mapping(buffer, &entries[0..count])
}

// The type of the request, and the message to read.
fn read(body: &[u8]) {
    if body.len() < 4 {
        print_cut();
        return;
    }
    answers::print_ack_answer(ack_reader::read_ack(octets::read_u32(body, 0), &body[4..]));
}
