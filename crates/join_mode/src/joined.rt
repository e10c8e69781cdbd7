use cap_outside::Opened;

/// What a joining came to.
#[derive(Drop)]
pub struct Joined<S> {
    /// The exit number.
    pub exit: u8,
    /// The sources that were asked for, in order, each with its name.
    pub sources: Vec<Opened<S>>,
}
