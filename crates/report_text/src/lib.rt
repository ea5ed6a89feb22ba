// The report as the lines that the program prints.
#![tactic(auto)]

ghost use Rattle.std.specs.Prelude.{◌+◌, ◌*◌, ◌≤◌};
ghost use Rattle.octets.specs.Prelude.{length};
ghost use Rattle.text.specs.Text.{capacity, Adds, Prints};
ghost use Rattle.messages.specs.Settings.{max_queues};
ghost use Rattle.report.specs.Reports.{counted_of};
ghost use Rattle.report_text.specs.ReportLines.{longest_tally, longest_queue, longest_report};
ghost use Rattle.report_text.specs.ReportLines.{tally_line, queue_line, queue_lines, counted_lines, report_text};

use report::{Counts, Tally};
use text::Text;

// What the program prints for a settings file and a capture.
pub fn report_text(settings: &[u8], captured: &[u8]) -> Text
    ensures { Prints result (report_text settings.now captured.now) }
{
    let mut text = Text::new();
    match report::report_on(settings, captured) {
        Ok(counts) => push_counts(&mut text, &counts),
        Err(refusal) => text.push_refusal_line(u32::from(refusal)),
    }
    text
}

// A line for each queue, one for the packets without a hash, and the total.
#[tactic(auto, unfolding(crate::specs::ReportLines::counted_lines))]
fn push_counts(text: &mut Text, counts: &Counts)
    requires { (counts.now.count ≤ max_queues) × (length text.old + longest_report ≤ capacity) }
    ensures { Adds text.old (counted_lines (counted_of counts.now)) text.new }
{
    push_queues(text, &counts.queues[..counts.count]);
    text.push_number_line(b"unhashed ", u64::from(counts.unhashed));
    text.push_octets(b"total ");
    push_tally(text, counts.total);
}

fn push_queues(text: &mut Text, queues: &[Tally])
    requires { (length queues.now ≤ max_queues) × (length text.old + max_queues * longest_queue ≤ capacity) }
    ensures adds { Adds text.old (queue_lines 0 queues.now) text.new }
    ensures length_bound { length text.new ≤ length text.old + max_queues * longest_queue }
{
    for (queue, tally) in queues.iter().enumerate() {
        push_queue(text, queue, *tally);
    }
}

// The line of a queue.
fn push_queue(text: &mut Text, queue: usize, tally: Tally)
    requires { length text.old + longest_queue ≤ capacity }
    ensures adds { Adds text.old (queue_line queue tally) text.new }
    ensures length_bound { length text.new ≤ length text.old + longest_queue }
{
    text.push_octets(b"queue ");
    text.push_decimal(queue as u64);
    text.push_octets(b" ");
    push_tally(text, tally);
}

// Packets, captured octets and the line's end.
fn push_tally(text: &mut Text, tally: Tally)
    requires { length text.old + longest_tally ≤ capacity }
    ensures adds { Adds text.old (tally_line tally) text.new }
    ensures length_bound { length text.new ≤ length text.old + longest_tally }
{
    text.push_decimal(u64::from(tally.packets));
    text.push_octets(b" ");
    text.push_decimal(u64::from(tally.octets));
    text.push_octets(b"\n");
}
