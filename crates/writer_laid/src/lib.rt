#![tactic(auto)]

// What the writer's test means: an accepted description is one that is packed, has names of at most 512 bytes, has a place, and is well laid in
// each. Definitions and theorems in specs/; no code.
