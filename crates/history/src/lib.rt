#![tactic(auto)]

// Demand 3: well-laid images, sessions, and the claim about two of them. Definitions and theorems in specs/; no code.
