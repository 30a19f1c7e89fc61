//! What the entries of a seat have to do with the commands of a script, and the laws of histories of the service.
#![tactic(auto)]
