// The worked lines that document 01 marks with P, proved of the definitions. There is no code here:
// `specs/` holds the lines and `proofs/` the one theorem over them.
#![tactic(auto)]
