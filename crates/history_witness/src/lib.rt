#![tactic(auto)]

// That the premises of demand 3 can be met, by three well-laid images and two sessions written out, and that six sham linkers fail it.
// Theorems in specs/; no code.
