// 64-bit floats as bounds of spans: definitions and what is known of them. There is no code here.
#![tactic(auto)]
