// What the cache rules come to, as a reader of RFC 6762 would ask it (section 10.2, section 10.1, and the specification, 'The cache'): stated in specs/laws
// about the definitions of `entries`, proved in proofs/laws. No code.
