// No code: which rows are well formed, for the first pass, which leaves such rows, and for the checker, which asks for them.
#![tactic(auto)]
