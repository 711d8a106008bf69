// What a history of updates, pauses and resumes comes to: statements alone, in specs/, and their proofs.
#![tactic(auto)]
