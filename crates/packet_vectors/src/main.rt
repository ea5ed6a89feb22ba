// Runs the cases of its files, one file after the other, and prints a line for each packet: what it is, and where it
// goes under the settings before it.
#![tactic(auto)]

use arrayvec::ArrayVec;
use case_tools::{print_number, print_word};
use cases::Cases;
use packet::IpPacket;
use toeplitz::HashType;

// The kinds, which are octets of the case files: settings for the packets behind them, and a packet.
const SETTINGS: u8 = 0;

const PACKET: u8 = 1;

// Where in the settings the key and the table stand, behind the flags.
const KEY_AT: usize = 1;

const TABLE_AT: usize = 41;

// Octets of the longest settings, with a table of 128 entries.
const MOST: usize = 169;

fn main(rt: HostRuntime) {
    let mut buffer = io::large_buffer();
    let mut settings = ArrayVec::new();
    for part in 0..cases::PARTS {
        // A file that is not there has no case.
        let n = cases::load_part(&rt, part, &mut buffer);
        run(&buffer[..n], &mut settings);
    }
}

// Runs the cases of one file under the settings that those before it left.
fn run(cases: &[u8], settings: &mut ArrayVec<u8, MOST>) {
    for case in (Cases { rest: cases }) {
        match case.kind {
            SETTINGS => cases::keep_instead(settings, case.body),
            PACKET => print_answer(settings.as_slice(), case.body),
            _ => {}
        }
    }
}

// Before the first settings there are none, and a table has an entry.
fn print_answer(settings: &[u8], packet: &[u8]) {
    if settings.len() <= TABLE_AT {
        cases::print_cut();
        return;
    }
    print_found(packet::look(packet));
    answer_text::print_steered(steering::steer(
        settings[0],
        &settings[KEY_AT..TABLE_AT],
        &settings[TABLE_AT..],
        packet,
    ));
}

// The kind of a packet, and where its addresses begin, its ports begin and its hash input ends.
fn print_found(found: Option<IpPacket>) {
    match found {
        None => print_word(b"none 0 0 0 "),
        Some(ip) => {
            print_word(type_name(ip.hash_type));
            print_number(b" ", ip.addresses as u64);
            print_number(b" ", ip.ports as u64);
            print_number(b" ", ip.end as u64);
            print_word(b" ");
        }
    }
}

fn type_name(hash_type: HashType) -> &'static [u8] {
    match hash_type {
        HashType::Ipv4 => b"ipv4",
        HashType::Ipv4Tcp => b"ipv4_tcp",
        HashType::Ipv6 => b"ipv6",
        HashType::Ipv6Tcp => b"ipv6_tcp",
    }
}
