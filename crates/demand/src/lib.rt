// No code: what is promised of lists of calls, and its proof.
#![tactic(auto)]
