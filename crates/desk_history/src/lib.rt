#![tactic(auto)]

// Demand 3 through the desk: history must not show, in sessions whose calls come by command buffers. Theorems in specs/; there is no code.
