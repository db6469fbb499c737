// Lists of calls on the board that has both chips: what is shown of them in specs/, the proof in proofs/. No code.
#![tactic(auto)]
