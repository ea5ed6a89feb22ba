// The guest's end of the ring, for a driver: the guest is in the driver's memory.
ghost use Rattle.std.specs.Prelude.{◌≡◌};
ghost use Rattle.guest_messages.specs.Writer.{get_flags_message, set_flags_message, set_key_message, set_mapping_message};
ghost use Rattle.guest_steps.specs.Guest.{Good, state_of, guest_at_setup};
ghost use Rattle.guest_steps.specs.Calls.{start_of, event_of};
ghost use Rattle.guest_numbers.specs.Answers.{Leaves, status_of_told, flags_of_told};

use guest_steps::{Ask, Guest};

// Sets up the guest: no request, and both own counts 0.
#[unsafe(no_mangle)]
pub extern "C" fn zwerfen_guest_set_up(guest: &mut Guest)
    ensures { state_of guest.new ≡ guest_at_setup }
{
    frontend::set_up(guest);
}

// Starts to ask which flags the host supports.
#[unsafe(no_mangle)]
pub extern "C" fn zwerfen_guest_start_get_flags(guest: &mut Guest, page: &mut [u8]) -> u32
    requires { Good (state_of guest.old) }
    ensures { Leaves (start_of get_flags_message (state_of guest.old) page.old) result (state_of guest.new)
        page.new
        × Good (state_of guest.new) }
{
    guest_calls::start(guest, page, Ask::GetFlags)
}

// Starts to set the flags of the hash types to use.
#[unsafe(no_mangle)]
pub extern "C" fn zwerfen_guest_start_set_flags(
    guest: &mut Guest,
    page: &mut [u8],
    flags: u64,
) -> u32
    requires { Good (state_of guest.old) }
    ensures { Leaves (start_of (set_flags_message flags) (state_of guest.old) page.old) result (state_of guest.new)
        page.new
        × Good (state_of guest.new) }
{
    guest_calls::start(guest, page, Ask::SetFlags(flags))
}

// Starts to set the key, octet for octet.
#[unsafe(no_mangle)]
pub extern "C" fn zwerfen_guest_start_set_key(guest: &mut Guest, page: &mut [u8], key: &[u8]) -> u32
    requires { Good (state_of guest.old) }
    ensures { Leaves (start_of (set_key_message key.now) (state_of guest.old) page.old) result
        (state_of guest.new)
        page.new
        × Good (state_of guest.new) }
{
    guest_calls::start(guest, page, Ask::SetKey(key))
}

// Starts to set the mapping: the queue of each entry.
#[unsafe(no_mangle)]
pub extern "C" fn zwerfen_guest_start_set_mapping(
    guest: &mut Guest,
    page: &mut [u8],
    entries: &[u64],
) -> u32
    requires { Good (state_of guest.old) }
    ensures { Leaves (start_of (set_mapping_message entries.now) (state_of guest.old) page.old) result
        (state_of guest.new)
        page.new
        × Good (state_of guest.new) }
{
    guest_calls::start(guest, page, Ask::SetMapping(entries))
}

// One event of the guest on its page.
#[unsafe(no_mangle)]
pub extern "C" fn zwerfen_guest_event(
    guest: &mut Guest,
    page: &mut [u8],
    status: &mut u32,
    flags: &mut u32,
) -> u32
    requires { Good (state_of guest.old) }
    ensures leaves { Leaves (event_of (state_of guest.old) page.old) result (state_of guest.new) page.new
        × Good (state_of guest.new) }
    ensures status_after { status.new ≡ status_of_told (event_of (state_of guest.old) page.old).answer status.old }
    ensures flags_after { flags.new ≡ flags_of_told (event_of (state_of guest.old) page.old).answer flags.old }
{
    guest_calls::event(guest, page, status, flags)
}
