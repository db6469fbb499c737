// A tunnel's device advanced by its shares (request Ten): the statement is in specs/, the proof in proofs/. There is no code.
#![tactic(auto)]
