// The plain machine of document 01, and what is shown of it: see specs/Lib.antt.
#![tactic(auto)]
