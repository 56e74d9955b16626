// Trees with leaves, nodes of one operand and nodes of two. `specs/Tree.antt` has them; there is no code here.
#![tactic(auto)]
