// The guest's writer of requests and reader of acks.
ghost use Rattle.std.specs.Prelude.{◌≡◌};
ghost use Rattle.octets.specs.Outcome.{number_of, placed};
ghost use Rattle.guest_messages.specs.Writer.{get_flags_message, set_flags_message, set_key_message, set_mapping_message};
ghost use Rattle.guest_messages.specs.Reader.{read_ack};
ghost use Rattle.by_number.specs.Answers.{status_told, flags_told, Writes};

// Asks which flags the host supports.
#[unsafe(no_mangle)]
pub extern "C" fn zwerfen_write_get_flags(buffer: &mut [u8], length: &mut usize) -> u32
    ensures { Writes get_flags_message buffer.old length.old result buffer.new length.new }
{
    let answer = guest_messages::write_get_flags(buffer);
    by_number::tell_written(answer, length)
}

// Sets the flags of the hash types to use.
#[unsafe(no_mangle)]
pub extern "C" fn zwerfen_write_set_flags(buffer: &mut [u8], flags: u64, length: &mut usize) -> u32
    ensures { Writes (set_flags_message flags) buffer.old length.old result buffer.new length.new }
{
    let answer = guest_messages::write_set_flags(buffer, flags);
    by_number::tell_written(answer, length)
}

// Sets the key, octet for octet.
#[unsafe(no_mangle)]
pub extern "C" fn zwerfen_write_set_key(buffer: &mut [u8], key: &[u8], length: &mut usize) -> u32
    ensures { Writes (set_key_message key.now) buffer.old length.old result buffer.new
        length.new }
{
    let answer = guest_messages::write_set_key(buffer, key);
    by_number::tell_written(answer, length)
}

// Sets the mapping: the queue of each entry.
#[unsafe(no_mangle)]
pub extern "C" fn zwerfen_write_set_mapping(
    buffer: &mut [u8],
    entries: &[u64],
    length: &mut usize,
) -> u32
    ensures { Writes (set_mapping_message entries.now) buffer.old length.old result buffer.new
        length.new }
{
    let answer = guest_messages::write_set_mapping(buffer, entries);
    by_number::tell_written(answer, length)
}

// Reads the ack to a request of type `kind`.
#[unsafe(no_mangle)]
pub extern "C" fn zwerfen_read_ack(
    kind: u32,
    message: &[u8],
    status: &mut u32,
    flags: &mut u32,
) -> u32
    ensures value { result ≡ number_of (read_ack kind message.now) }
    ensures status_after { status.new ≡ placed status_told (read_ack kind message.now) status.old }
    ensures flags_after { flags.new ≡ placed flags_told (read_ack kind message.now) flags.old }
{
    by_number::read_ack(kind, message, status, flags)
}
