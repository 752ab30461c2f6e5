// What the mapping comes to, as a reader of RFC 8766 would ask it (sections 5.2, 5.3 and 5.5): stated in specs/laws about the definitions of the other modules,
// proved in proofs/laws. No code.
