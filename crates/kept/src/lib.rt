// No code: the proofs that every event leaves what the session's inner path relies on. They stand below the session, which uses
// them, and below the promises, which state them.
#![tactic(auto)]
