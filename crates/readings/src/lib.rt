// Tables of examples, evaluated over the definitions that the contracts cite: the specification's starred corner readings (specs/Starred.antt), states
// handed in and times at their limits (specs/States.antt), every response of three set-ups (specs/Subsets.antt). There is no code here.
#![tactic(auto)]
