// Theorems only: an image that is read and written again, and tables that are written and read again. They stand in proofs/.
#![tactic(auto)]
