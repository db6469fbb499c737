// The walk of a call over a device that is lent, and what a refused call leaves of it: laws in proofs/. No code.
#![tactic(auto)]
