// Variables, literals and the seven families of clauses, as definitions and their laws. There is no code here.
#![tactic(auto)]
