// A new interface, written in place.
ghost use Rattle.std.specs.Prelude.{◌≡◌};
ghost use Rattle.octets.specs.Outcome.{number_of, placed, itself};
ghost use Rattle.interface.specs.States.{state_of, set_up_number, set_up_outcome};

use crate::{Interface, MAX_QUEUES, QueuesWrong};

impl Interface {
    // Sets up the interface with this many queues in operation, 1 to 64. Every octet of it is written; where the number is
    // refused, none is.
    #[tactic(auto, unfolding(crate::specs::States::set_up_outcome))]
    pub fn set_up(&mut self, queues: u32) -> Result<(), QueuesWrong>
        ensures { (set_up_number result ≡ number_of (set_up_outcome queues))
            × (state_of self.new ≡ placed itself (set_up_outcome queues) (state_of self.old)) }
    {
        if queues == 0 {
            return Err(QueuesWrong);
        }
        if queues > MAX_QUEUES {
            return Err(QueuesWrong);
        }
        // No flags, a mapping of one entry, queue 0, and all else 0.
        *self = Interface {
            queues: queues as u64,
            entry_count: 1,
            ..Interface::zeroed()
        };
        Ok(())
    }
}
