// No code: what is claimed of whole runs, over the definitions that the contracts of `open` and `request` equate with the code
// (document 01, "Two runs and the last writer"). The claim is `Claim` in specs/Claim.antt, its proof `claim` in proofs/Demand3.antt.
#![tactic(auto)]
