// Messages on the areas of a page: the present one read until it is whole, and one written as far as it fits, for both ends. Of
// a message the ring knows only its length.
#![tactic(auto)]

mod receiving;
mod sending;

pub use receiving::Receiving;
pub use sending::Sending;
