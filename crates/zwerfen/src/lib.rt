// What a host or a driver in C or Rust links: each call with the C calling convention. A slice is a pointer and a length, an
// interface or a guest a struct in the caller's memory. Each is one call of what stands below, to which the struct is lent, so
// that nothing is copied.
#![tactic(auto)]

mod driver;
mod hash_calls;
mod host;
mod writing;
