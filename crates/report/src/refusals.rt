// The refusals of a report: what is refused of the settings or the capture, and the number of each.
ghost use Rattle.std.specs.Prelude.{◌≡◌};
ghost use Rattle.report.specs.Reports.{report_refusal_number};
ghost use Rattle.report.specs.declared.ReportRefusal.TheVariants.{Settings, Header, Record};

use crate::ReportRefusal;
use capture::{HeaderWrong, RecordWrong};
use settings_file::SettingsRefusal;

const FILE_TOO_LONG: u32 = 23;

impl From<SettingsRefusal> for ReportRefusal {
    ghost from_gives = { λ e r. r ≡ Settings e };

    fn from(refusal: SettingsRefusal) -> ReportRefusal {
        ReportRefusal::Settings(refusal)
    }
}

impl From<HeaderWrong> for ReportRefusal {
    ghost from_gives = { λ e r. r ≡ Header e };

    fn from(refusal: HeaderWrong) -> ReportRefusal {
        ReportRefusal::Header(refusal)
    }
}

impl From<RecordWrong> for ReportRefusal {
    ghost from_gives = { λ e r. r ≡ Record e };

    fn from(refusal: RecordWrong) -> ReportRefusal {
        ReportRefusal::Record(refusal)
    }
}

impl From<ReportRefusal> for u32 {
    ghost from_gives = { λ e n. n ≡ report_refusal_number e };

    fn from(refusal: ReportRefusal) -> u32 {
        match refusal {
            ReportRefusal::FileTooLong => FILE_TOO_LONG,
            ReportRefusal::Settings(refusal) => u32::from(refusal),
            ReportRefusal::Header(refusal) => u32::from(refusal),
            ReportRefusal::Record(refusal) => u32::from(refusal),
        }
    }
}
