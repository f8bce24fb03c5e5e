#![tactic(auto)]

// That the desk serves each caller in its order, and soon: theorems in specs/ about the definitions of desk_spec. There is no code.
