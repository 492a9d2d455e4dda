// The claim over every list of calls: see specs/Lib.antt.
#![tactic(auto)]
