// The lines that the program prints.
use case_tools::{digest, print_form, print_number};
use guest_messages::{AckRead, NotAnAck, WriteRefusal};
use interface::Interface;

// Where printed text goes.
const STDOUT: i32 = 1;

// The octets of the ack, and the settings left.
pub(crate) fn print_carried(i: &Interface) {
    print_form(b"ack # ", &[i.outgoing.length]);
    print_octets(&i.ack);
    print_form(
        b" queues # flags # entries # key $ table $\n",
        &[
            i.queues,
            i.flags,
            i.entry_count,
            digest(&i.key),
            digest(&i.entries),
        ],
    );
}

fn print_octets(octets: &[u8]) {
    for octet in octets {
        io::print_hex(STDOUT, u64::from(*octet), 2);
    }
}

// The answer, and a digest of the whole buffer.
pub(crate) fn print_written(written: Result<usize, WriteRefusal>, buffer: &[u8]) {
    match written {
        Ok(length) => print_number(b"length ", length as u64),
        Err(refusal) => print_number(b"refused ", u32::from(refusal) as u64),
    }
    print_form(b" buffer $\n", &[digest(buffer)]);
}

pub(crate) fn print_ack_answer(answer: Result<AckRead, NotAnAck>) {
    match answer {
        Ok(ack) => guest_cases::print_ack(ack),
        Err(refusal) => print_number(b"refused ", u32::from(refusal) as u64),
    }
    case_tools::print_word(b"\n");
}
