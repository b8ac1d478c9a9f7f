#![tactic(auto)]

// General definitions and laws on numbers and lists that the crates above share. No function: the definitions are in specs/, the laws in
// proofs/.
