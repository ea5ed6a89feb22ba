// One interface of the host, in the host's memory.
ghost use Rattle.std.specs.Prelude.{◌≡◌};
ghost use Rattle.octets.specs.Outcome.{number_of, placed, itself};
ghost use Rattle.interface.specs.States.{Good, state_of, set_up_outcome, steered_by};
ghost use Rattle.interface.specs.Events.{left, event_of};
ghost use Rattle.questions.specs.Answers.{Steers};

use interface::Interface;

// What a setup answers that is not refused.
const DONE: u32 = 0;

// Sets up the interface with this many queues in operation, 1 to 64.
#[unsafe(no_mangle)]
pub extern "C" fn zwerfen_set_up(interface: &mut Interface, queues: u32) -> u32
    ensures { (result ≡ number_of (set_up_outcome queues))
        × (state_of interface.new ≡ placed itself (set_up_outcome queues) (state_of interface.old)) }
{
    match interface.set_up(queues) {
        Ok(()) => DONE,
        Err(refusal) => refusal.into(),
    }
}

// One event of the interface on its page.
#[unsafe(no_mangle)]
pub extern "C" fn zwerfen_event(interface: &mut Interface, page: &mut [u8]) -> u32
    requires { Good (state_of interface.old) }
    ensures { (left result (state_of interface.new) page.new
        ≡ event_of (state_of interface.old) page.old)
        × Good (state_of interface.new) }
{
    backend::event(interface, page).map_or_else(u32::from, u32::from)
}

// Type, hash and queue of a packet under the settings of the interface.
#[unsafe(no_mangle)]
pub extern "C" fn zwerfen_steer(
    interface: &Interface,
    packet: &[u8],
    hash_type: &mut u32,
    hash: &mut u32,
    queue: &mut u32,
) -> u32
    requires { Good (state_of interface.now) }
    ensures { Steers (steered_by (state_of interface.now).settings packet.now)
        hash_type.old hash.old result hash_type.new hash.new
        queue.new }
{
    questions::steer(interface, packet, hash_type, hash, queue)
}
