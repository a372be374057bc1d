// What messages and commands are to an endpoint: messages are classified, Requests and Accepteds judged, commands turned into
// Requests.
#![tactic(auto)]

pub mod accepteds;
pub mod addresses;
pub mod commands;
pub mod hearing;
pub mod requests;
