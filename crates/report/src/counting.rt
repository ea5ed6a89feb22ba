// The counts of a report, a packet at a time.
ghost use Rattle.std.specs.Prelude.{◌≡◌, ◌+◌, ◌≤◌, ◌<◌, ◌^◌};
ghost use Rattle.messages.specs.Settings.{max_queues};
ghost use Rattle.steering.specs.Steering.{choice_of};
ghost use Rattle.report.specs.Reports.{counted_of};
ghost use Rattle.report.specs.Inner.{HasRoom, nothing_on, with_packet, tally_with};

use crate::{Counts, MAX_QUEUES, Tally};
use steering::Steered;

impl Counts {
    // Nothing counted, on so many queues.
    pub(crate) fn none(queues: usize) -> Self
        requires { queues ≤ max_queues }
        ensures counted { counted_of result ≡ nothing_on queues }
        ensures count { result.count ≡ queues }
    {
        Counts {
            count: queues,
            queues: [Tally::default(); MAX_QUEUES],
            unhashed: 0,
            total: Tally::default(),
        }
    }

    // One packet more, of so many octets, under its choice.
    #[tactic(auto, using(crate::proofs::Tallies::kept_set, crate::proofs::Tallies::kept_index))]
    pub(crate) fn add(&mut self, choice: Steered, octets: u32)
        requires { HasRoom (choice_of choice) octets (counted_of self.old) }
        ensures counted { counted_of self.new ≡ with_packet (choice_of choice) octets (counted_of self.old) }
        ensures count { self.new.count ≡ self.old.count }
    {
        let queue = match choice {
            Steered::NoType { queue } => {
                self.unhashed += 1;
                queue
            }
            Steered::Hashed { queue, .. } => queue,
        };
        self.queues[queue as usize].add(octets);
        self.total.add(octets);
    }
}

impl Tally {
    // One packet more, of so many octets.
    fn add(&mut self, octets: u32)
        requires { (self.old.packets + 1 < 2 ^ 32) × (self.old.octets + octets < 2 ^ 32) }
        ensures { self.new ≡ tally_with self.old octets }
    {
        self.packets += 1;
        self.octets += octets;
    }
}
