// The sequence in which the tiles are streamed (02.5): each after every tile nearer than it, of those free to come next
// the lowest number first. The call is call::stream_order.
#![tactic(auto)]

mod blocking;
pub mod call;
mod taking;
