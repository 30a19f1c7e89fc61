use ps_reach::{Evidence, Judged};

/// What two segments come to.
#[derive(Drop)]
pub enum Decision {
    /// Both were filled, and compared.
    Judged(Judged),
    /// The first passes this limit, and the second was not filled.
    Passed(Evidence),
}
