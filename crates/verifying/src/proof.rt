//! What a certificate proves.

/// The numbers of a proof. A certificate proves that the output conforms and is a least image of
/// the input.
#[derive(Clone, Copy, Debug, PartialEq, Eq)]
pub struct Proof {
    /// The number of instances in the input.
    pub instances: u64,
    /// The number of instances in the output.
    pub kept: u64,
    /// The last round of the certificate's second table.
    pub rounds: u32,
}
