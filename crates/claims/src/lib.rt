// What is claimed of the calls together, over their definitions. There is no code here.
#![tactic(auto)]
