// Positive fractions: definitions and what is known of them. There is no code here.
#![tactic(auto)]
