// How the packets of a capture spread over the queues of an interface with the settings of a file.
#![tactic(auto)]

ghost use Rattle.std.specs.Prelude.{◌≡◌, ◌≤◌, IfOk};
ghost use Rattle.octets.specs.Prelude.{length};
ghost use Rattle.messages.specs.Settings.{max_queues, Good};
ghost use Rattle.interface.specs.States.{settings_in};
ghost use Rattle.report.specs.Reports.{max_file, report_over, report_on, report_of};

mod counting;
mod refusals;

use capture::{HeaderWrong, Link, Reader, RecordWrong};
use interface::Interface;
use settings_file::SettingsRefusal;

// The most octets of a file, and the most queues.
pub const MAX_FILE: usize = 65536;

pub const MAX_QUEUES: usize = interface::MAX_QUEUES as usize;

// Packets, and their captured octets.
#[derive(Clone, Copy, Debug, Default, PartialEq, Eq)]
pub struct Tally {
    pub packets: u32,
    pub octets: u32,
}

// A tally for each queue, of which the first `count` are in operation; how many packets have no hash, which are counted on queue 0
// too; and the total. The tallies are an array with its count, since counts are copied and an `ArrayVec` is not.
#[derive(Clone, Copy, Debug)]
pub struct Counts {
    pub count: usize,
    pub queues: [Tally; MAX_QUEUES],
    pub unhashed: u32,
    pub total: Tally,
}

// Why there is no report.
#[derive(Clone, Copy, Debug, PartialEq, Eq)]
pub enum ReportRefusal {
    // A file has more than 65,536 octets.
    FileTooLong,
    Settings(SettingsRefusal),
    Header(HeaderWrong),
    Record(RecordWrong),
}

// The report on a settings file and a capture.
#[tactic(auto, unfolding(crate::specs::Reports::report_on))]
pub fn report_on(settings: &[u8], captured: &[u8]) -> Result<Counts, ReportRefusal>
    ensures counts { report_of result ≡ report_on settings.now captured.now }
    ensures queues { IfOk result (λ c. c.count ≤ max_queues) }
{
    if settings.len().max(captured.len()) > MAX_FILE {
        return Err(ReportRefusal::FileTooLong);
    }
    let interface = settings_file::load_settings(settings)?;
    let link = link_types::header(captured)?;
    count_records(&interface, link, captured)
}

// Counts the records of a capture one after the other.
fn count_records(
    interface: &Interface,
    link: Link,
    captured: &[u8],
) -> Result<Counts, ReportRefusal>
    requires { Good (settings_in interface.now) × (length captured.now ≤ max_file) }
    ensures counts { report_of result ≡ report_over (settings_in interface.now) link captured.now }
    ensures queues { IfOk result (λ c. c.count ≤ max_queues) }
{
    let mut counts = Counts::none(interface.queues as usize);
    for record in Reader::open(captured) {
        let record = record?;
        let frame = &captured[record.start..record.end];
        let choice = interface.steer(link_types::ip_part(link, frame));
        counts.add(choice, frame.len() as u32);
    }
    Ok(counts)
}
