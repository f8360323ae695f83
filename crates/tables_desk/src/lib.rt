// A dialogue at the desk, closed by computation. No function.
#![tactic(auto)]
