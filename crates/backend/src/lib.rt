// The event of one interface's control ring. The guest shares the page and is not trusted: whatever it holds, the call ends and
// gives back a good state.
#![tactic(auto)]

mod events;

pub use events::event;
