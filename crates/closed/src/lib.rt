// Closed sets and the list: definitions and laws. There is no code here: the contracts of the finder name these definitions and laws.
#![tactic(auto)]
