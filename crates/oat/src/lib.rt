// No code: the Oat v.2 language as definitions, in specs/.
#![tactic(auto)]
