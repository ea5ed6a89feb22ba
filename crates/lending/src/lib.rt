// No function, theorems alone: the law by which an export that lends the parts of a struct to one call was proved by hand, and the
// law that follows code which passes values on and calls. Today's check finds these proofs itself, of the exports in `zwerfen` and
// of the reader in `capture`, and cites nothing of this crate.
#![tactic(auto)]
