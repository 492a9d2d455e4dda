// The plain list of held copies: see specs/Lib.antt.
#![tactic(auto)]
