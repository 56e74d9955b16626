// What is written reads back. `specs/` has the theorems; there is no code here.
#![tactic(auto)]
