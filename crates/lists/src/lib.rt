// The notation in which the tables of the other crates are written, and its laws. There is no code here.
#![tactic(auto)]
