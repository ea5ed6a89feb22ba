// The two ends of a ring, taking turns: theorems alone, over the definitions of the guest's end and of the host's.
#![tactic(auto)]
