// No code: the promises are written out in specs/, Promises.antt first, and the theorems that prove them stand in proofs/.
#![tactic(auto)]
