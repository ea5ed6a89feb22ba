// The end of a packet's line, which more than one test program prints.
#![tactic(auto)]

use case_tools::print_form;
use steering::Steered;

// The type and hash of a packet, where it has them, and its queue.
pub fn print_steered(steered: Steered) {
    match steered {
        Steered::NoType { queue } => print_form(b"no type queue #\n", &[queue as u64]),
        Steered::Hashed {
            hash_type,
            hash,
            queue,
        } => {
            print_form(
                b"type # hash $ queue #\n",
                &[u64::from(u32::from(hash_type)), hash as u64, queue as u64],
            )
        }
    }
}
