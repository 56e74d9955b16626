// The demands, on bytes: `specs/Demand.antt` states what `bind` and `run` together keep, `specs/Proved.antt` proves it. There is no code here.
#![tactic(auto)]
