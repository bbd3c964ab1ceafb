// The numbers that answers carry: causes, layers, codes and refusals, each by name.
#![tactic(auto)]

pub mod cause;
pub mod code;
pub mod fault;
pub mod layer;
pub mod refusal;

pub use cause::Cause;
pub use code::Code;
pub use fault::Fault;
pub use layer::Layer;
pub use refusal::Refusal;
