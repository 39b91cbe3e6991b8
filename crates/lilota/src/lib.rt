// The C interface: each function of include/lilota.h over the call of its name.
#![tactic(auto)]

mod c;
mod c_check;
mod c_length;
mod c_plan;
mod c_trace;
