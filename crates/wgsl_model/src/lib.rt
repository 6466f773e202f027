//! What a user of the parser must believe: the tokens, the grammar, the faults and the printed text of WGSL, as definitions.
#![tactic(auto)]
