// No code: specs/ says when vocabularies look alike to the calls, proofs/ that the calls then answer and write the same.
#![tactic(auto)]
