// What a stop and an update send (specification, 'Stops and updates'), said of the calls of the responder and of the bytes. Statements in specs/, the theorems
// in proofs/; no code.
#![tactic(auto)]
