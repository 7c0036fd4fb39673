//! The label numbers of a node, and bindings of a label to a FEC (RFC 5036 section 3.5, RFC 6388 section 2.4). Labels
//! are asked for and given back; what goes out are bindings that must be spent, so that no label is lost or used twice.
//! A label is free, owned, or resting until a moment (`state.rt`). `space.rt` has what each label is and the list of
//! those that rest; contracts see the states alone. States are written as far as a label was used, and each label after
//! that is free. The least free label is found by a look at up to 16 words of 64 bits and one more: a bit of the 1,024
//! words of a set stands for a number, and a bit of the 16 words for a word of the set that has one (`marks.rt`,
//! `numbers.rt`). `wake` and `due` go over the labels that rest, and not over all. A binding is wanted, mapped or
//! leaving (`binding.rt`), and `bindings.rt` has bindings under names that are never given twice. Below it are
//! `mv_base` and `mldp`, whose FEC a binding names; above it `label_trees` has the labels of a whole node.
#![tactic(auto)]

mod any_binding;
mod binding;
mod bindings;
mod laws;
mod marks;
mod name;
mod numbers;
mod places;
mod space;
mod state;

pub use any_binding::{AnyBinding, BindingState};
pub use binding::{Binding, Incarnation, Leaving, Mapped, Wanted};
pub use bindings::Bindings;
pub use laws::each_label;
pub use name::BindingName;
pub use space::LabelSpace;
pub use state::LabelState;

#[cfg(test)]
mod tests;
