// Laws about the definitions of crate spec alone (specs/), for the theorem and for the code: each stands here once.
#![tactic(auto)]
