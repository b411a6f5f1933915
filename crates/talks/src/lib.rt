// What depot and tag say to each other, as theorems over the promises of both (RULES 12.6 to 12.8). The crate has no code.
#![tactic(auto)]
