// The steps of a mount and of a sweep as functions of the first reading (specs/), for the call that changes nothing and only tells them.
#![tactic(auto)]
