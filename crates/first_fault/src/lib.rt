// No code: the first fault of a file, for any rules of what comes next in it.
#![tactic(auto)]
