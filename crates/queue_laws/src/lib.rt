// What is shown of the queue: see specs/Lib.antt.
#![tactic(auto)]
