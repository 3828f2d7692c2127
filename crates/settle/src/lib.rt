#![tactic(auto)]

// What is promised (RULES 13): theorems over the rules alone. The statements are in specs/, their proofs in proofs/.
