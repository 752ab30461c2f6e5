// A record asked for is left out exactly for a cause (specification, 'Which answers go out'), said of a call of the responder and of the bytes that it sends.
// Statements in specs/, the theorem in proofs/; no code.
#![tactic(auto)]
