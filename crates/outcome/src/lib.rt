// How the answers of the code are held to definitions. There is no code here: the definitions and the
// lemmas about them serve every crate above.
#![tactic(auto)]
