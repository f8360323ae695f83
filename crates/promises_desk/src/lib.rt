// What is promised of the desk. No function.
#![tactic(auto)]
