//! What the labels of a node are used for, with a binding of its own for each label that is mapped or leaving (RFC 5036
//! section 3.5, RFC 6388 section 2.4).

mod held;
mod label_uses;
mod table;

pub use label_uses::LabelUses;
