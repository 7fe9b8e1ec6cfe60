#![tactic(auto)]

// Readings of the rules that are easy to get wrong, held by computation against the definitions of `rules`. No function is here; see specs/.
