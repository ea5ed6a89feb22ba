// The settings of a file: a queue count, then messages carried out one after the other.
#![tactic(auto)]

ghost use Rattle.std.specs.Prelude.{◌≡◌, ◌<◌, IfOk, IfErr, OnErr};
ghost use Rattle.octets.specs.Prelude.{length};
ghost use Rattle.octets.specs.Outcome.{refused};
ghost use Rattle.messages.specs.Settings.{Good};
ghost use Rattle.interface.specs.States.{settings_in};
ghost use Rattle.settings_file.specs.Loading.{settings_wrong, settings_refusal_number, settings_from, settings_outcome, settings_outcome_of};
ghost use Rattle.settings_file.specs.Inner.{GoesOn, Keeps, left_outcome};
ghost use Rattle.settings_file.specs.declared.SettingsRefusal.TheVariants.{QueueCount};

use interface::{Interface, QueuesWrong};
use messages::{HEADER, MAX_PAYLOAD, SIZE_AT, SUCCESS};

// The number of the refusal of a message.
const SETTINGS_WRONG: u32 = 22;

// Why a file is refused.
#[derive(Clone, Copy, Debug, PartialEq, Eq)]
pub enum SettingsRefusal {
    // There is no good queue count.
    QueueCount,
    // A message is cut short, or not acked with success.
    Message,
}

impl From<SettingsRefusal> for u32 {
    ghost from_gives = { λ e n. n ≡ settings_refusal_number e };

    fn from(refusal: SettingsRefusal) -> u32 {
        match refusal {
            SettingsRefusal::QueueCount => u32::from(QueuesWrong),
            SettingsRefusal::Message => SETTINGS_WRONG,
        }
    }
}

impl From<QueuesWrong> for SettingsRefusal {
    ghost from_gives = { λ _ e. e ≡ QueueCount };

    fn from(_refusal: QueuesWrong) -> SettingsRefusal {
        SettingsRefusal::QueueCount
    }
}

// An interface with the settings of a file.
pub fn load_settings(file: &[u8]) -> Result<Interface, SettingsRefusal>
    ensures settings { settings_outcome_of result ≡ settings_outcome file.now }
    ensures good { IfOk result (λ i. Good (settings_in i)) }
{
    // A missing queue count is refused as 0 is.
    let (queues, messages) = file.split_first().unwrap_or((&0, &[]));
    let mut interface = Interface::zeroed();
    interface.set_up(u32::from(*queues))?;
    carry_out_all(&mut interface, messages)?;
    Ok(interface)
}

// Carries out the messages one after the other, up to the first that is refused. A `while` goes over what is left of a slice: an
// iterator of messages would be a type with a promise and a proof of its own, for this one loop.
#[tactic(auto, using(crate::proofs::Loads::from_empty))]
fn carry_out_all(i: &mut Interface, messages: &[u8]) -> Result<(), SettingsRefusal>
    requires { Good (settings_in i.old) }
    ensures settings { left_outcome result (settings_in i.new) ≡ settings_from (settings_in i.old) messages.now }
    ensures good { Good (settings_in i.new) }
{
    let mut rest = messages;
    while !rest.is_empty() {
        rest = carry_out_first(i, rest)?;
    }
    Ok(())
}

// Carries out the message that these octets begin with, and answers the octets behind it.
fn carry_out_first<'a>(i: &mut Interface, octets: &'a [u8]) -> Result<&'a [u8], SettingsRefusal>
    requires { Good (settings_in i.old) × (0 < length octets.now) }
    ensures good { Good (settings_in i.new) }
    ensures next { IfOk result (λ behind. GoesOn (settings_in i.old) octets.now (settings_in i.new) behind.now) }
    ensures wrong { OnErr result (settings_from (settings_in i.old) octets.now ≡ refused settings_wrong) }
    ensures refusal { IfErr result (λ e. e ≡ SettingsRefusal.Message) }
{
    let Some((header, rest)) = octets.split_first_chunk::<HEADER>() else {
        return Err(SettingsRefusal::Message);
    };
    let size = octets::read_u32(header, SIZE_AT) as usize;
    let Some((payload, behind)) = rest.split_at_checked(size) else {
        return Err(SettingsRefusal::Message);
    };
    i.header = *header;
    keep(&mut i.payload, payload);
    requests::carry_out(i);
    if octets::read_u64(&i.ack, HEADER) != SUCCESS as u64 {
        return Err(SettingsRefusal::Message);
    }
    Ok(behind)
}

// Keeps as much of a payload as the host does: its first 1,024 octets.
fn keep(kept: &mut [u8; MAX_PAYLOAD], payload: &[u8])
    ensures { Keeps payload.now kept.new }
{
    let size = payload.len().min(MAX_PAYLOAD);
    kept[..size].copy_from_slice(&payload[..size]);
}
