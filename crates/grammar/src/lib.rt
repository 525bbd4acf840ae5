#![tactic(auto)]

// No function stands here: the rules are in specs/, what is proved of them in proofs/.
