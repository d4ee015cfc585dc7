// Decimal digits, written and read: definitions and their laws. There is no code here.
#![tactic(auto)]
