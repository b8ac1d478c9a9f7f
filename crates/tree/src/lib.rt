#![tactic(auto)]

// The canonical tree of a set of records, without a store: the definitions are in specs/, the proofs of what specs/Promises.antt states
// in proofs/.
