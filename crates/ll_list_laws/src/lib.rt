//! Laws of lists, options, results, tests and numbers that the standard library lacks: `proofs/CallerLemmas.antt`. There is no code here.
#![tactic(auto)]
