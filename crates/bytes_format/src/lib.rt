// What byte images are made of: `proofs/Formats.antt` and `proofs/Run.antt` have the layouts, each with its two round trips. There is no code here.
#![tactic(auto)]
