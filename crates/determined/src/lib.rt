#![tactic(auto)]

// That each contract allows one result alone. No function is here; see specs/.
