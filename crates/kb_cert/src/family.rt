// Families of orders.

/// Which orders are searched for a certificate, and in which order.
#[derive(Clone, Copy, Debug, PartialEq, Eq)]
pub enum Family {
    /// The path orders of all precedences, then the linear interpretations, then the Knuth-Bendix orders.
    Stated,
}
