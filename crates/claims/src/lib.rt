// The user's demands as theorems, over the relations that the contracts cite. No code.
#![tactic(auto)]
