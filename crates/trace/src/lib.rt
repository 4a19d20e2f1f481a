// Lists of calls, run by the definitions that the contracts of the calls state, and their agreement with the plain burst. No code.
#![tactic(auto)]
