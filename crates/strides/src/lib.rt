// The laws of quiet runs of cycles: definitions in specs/, laws in proofs/. No code.
#![tactic(auto)]
