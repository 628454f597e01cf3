// No code: the claim about whole lists of calls stands in specs/Lists.antt, that a sample call is a list of single turns in
// specs/Samples.antt; the proofs in proofs/.
#![tactic(auto)]
