// Demand 3: what two ends of one setting make of each other, over the rules alone. No function stands here.
#![tactic(auto)]
