#![tactic(auto)]

// The three demands, of the code. No function is here; see specs/.
