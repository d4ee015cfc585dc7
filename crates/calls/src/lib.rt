// The questions, and what each call answers and leaves, as definitions and their laws. There is no code here.
#![tactic(auto)]
