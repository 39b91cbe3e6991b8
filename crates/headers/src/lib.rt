// A file's length from the headers and names of the chain alone (request K8). Nothing here reads a data byte: the bytes that are read are
// those of headers, of names with their 00, and of the eight that end the walk.
#![tactic(auto)]

mod first;
mod front;
pub mod measure;
mod stands;

// The lengths of the first FC record and of the first F8 record of a name, among the records so far.
#[derive(Clone, Copy)]
pub struct Sizes {
    pub committed: Option<usize>,
    pub migrating: Option<usize>,
}
