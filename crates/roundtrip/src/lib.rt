// The round trip: what `writer` writes, `wire` reads (specification, 'Writing a packet' and 'Reading a message'). Statements in specs/, proofs in proofs/;
// no code.
#![tactic(auto)]
