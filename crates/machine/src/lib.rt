#![tactic(auto)]

// No function stands here: the machine is in specs/, what is proved of it in proofs/.
