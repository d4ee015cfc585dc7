// Distances in the graph of an instance, as definitions and their laws. There is no code here.
#![tactic(auto)]
