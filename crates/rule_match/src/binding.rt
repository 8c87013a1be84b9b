//! Bindings: which GPRs and which slots the parameters of a rule have.

/// The GPR of each parameter, and the slot, 0 for ebx, 1 for esi and 2 for edi, of each parameter that stands in one, in
/// order. What is past their counts is 0.
#[derive(Clone, Copy)]
pub struct Binding {
    pub gpr: [u8; 6],
    pub slot: [u8; 3],
}
