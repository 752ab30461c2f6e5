// Demand 3 for our responder (specification, 'A claim's life', from "Demand 3 is a single claim" on): start, packet received and tick, by the definitions that
// their contracts give, are a `Responder` of `link` and meet its laws. Definitions in specs/, proofs in proofs/, no function. Read specs/Responder first.
#![tactic(auto)]
