#![tactic(auto)]

// Where code, program and theorem meet: theorems over the calls' own definitions. The statements are in specs/, their proofs in proofs/.
