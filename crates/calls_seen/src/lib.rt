// The calls that show a card: to a host by its command, to people as the printed front; on lent bytes.
// Anything may be lent: what has not its size is refused, or answered as the host's command has it.
// What a host may not ask is an answer to it and no refusal.
#![tactic(auto)]

mod hosting;
mod printing;

pub use hosting::host;
pub use printing::front;
