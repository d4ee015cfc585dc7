// Plans and valid steps, as definitions and their laws. There is no code here.
#![tactic(auto)]
