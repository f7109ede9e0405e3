// The sequence of tiles over any relation between them (02.5): definitions and theorems alone, and no code.
#![tactic(auto)]
